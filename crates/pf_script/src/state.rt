use crate::fault::{Reason, RecordFault};
use crate::fields::Fields;
use crate::parse::parse_record;
use crate::record::Record;
use crate::stage::Stage;
use crate::version::Version;
use std::marker::Model;

/// How far a script is: what its next record may be.
#[derive(Clone, Copy)]
pub struct ScriptState {
    stage: Stage,
}

impl Model for ScriptState {
    ghost use Rattle.pf_script.specs.declared.stage.Stage.{Stage};

    ghost Value = { Stage };

    ghost view = { λ s. s.stage };

    ghost inverse = { λ v. record { stage = v } };
}

impl ScriptState {
    ghost use Rattle.std.specs.Prelude.{◌≡◌};
    ghost use Rattle.pf_script.specs.declared.stage.Stage.TheVariants.{Beginning, Opened};
    ghost use Rattle.pf_script.specs.Parsing.{record_at};
    ghost use Rattle.pf_script.specs.Told.{end_fault, stage_after};

    /// Before the first record.
    pub fn new() -> Self
        ensures { result ≡ Beginning }
    {
        ScriptState {
            stage: Stage::Beginning,
        }
    }

    /// After the settings, in a script of this version.
    pub fn opened(version: Version) -> Self
        ensures { result ≡ Opened version }
    {
        ScriptState {
            stage: Stage::Opened(version),
        }
    }

    /// What the next record says.
    ///
    /// # Errors
    ///
    /// Where the record is none of the script's here: the state stays as it was.
    pub fn take(&mut self, fields: &Fields) -> Result<Record, RecordFault>
        ensures said { result ≡ record_at self.old fields.now }
        ensures state { self.new ≡ stage_after self.old result }
    {
        let record = parse_record(self.stage, fields)?;
        self.stage = self.stage.after(&record);
        Ok(record)
    }

    /// What is wrong with a script that ends here: it lacks its settings.
    pub fn end_fault(&self) -> Option<RecordFault>
        ensures { result ≡ end_fault self.now }
    {
        match self.stage {
            Stage::Beginning | Stage::Headed => Some(RecordFault {
                field: 1,
                reason: Reason::NoSettings,
            }),
            Stage::Opened(_) => None,
        }
    }
}
