ghost use Rattle.std.specs.Prelude.{◌≡◌};
ghost use Rattle.pf_script.specs.Told.{stage_behind};

use crate::record::Record;
use crate::version::Version;

/// What a script may go on with.
#[derive(Clone, Copy)]
pub enum Stage {
    /// The heading or the settings.
    Beginning,
    /// The settings, after the heading.
    Headed,
    /// Changes and steps, in a script of this version.
    Opened(Version),
}

impl Stage {
    /// The stage after a record that was read here.
    pub fn after(self, said: &Record) -> Stage
        ensures { result ≡ stage_behind self said.now }
    {
        match said {
            Record::Heading => Stage::Headed,
            Record::Settings(opening) => Stage::Opened(opening.version),
            Record::Asks(_) => self,
        }
    }
}
