ghost use Rattle.std.specs.Prelude.{◌≡◌};
ghost use Rattle.pf_c_api.specs.Running.{raw_bad, raw_bad_plan};

use pf_script::fault::BadRecord;

/// Where a record is that is none of a script's, as C gets it. All are counted from 1.
#[repr(C)]
#[derive(Clone, Copy)]
pub struct RawBadRecord {
    /// Its number.
    pub number: u64,
    /// The line on which it begins.
    pub line: u64,
    /// The field at fault.
    pub field: u64,
}

impl RawBadRecord {
    /// The place of a bad record.
    pub fn of(bad: BadRecord) -> RawBadRecord
        ensures { result ≡ raw_bad bad }
    {
        RawBadRecord {
            number: bad.number,
            line: bad.line,
            field: bad.fault.field as u64,
        }
    }

    /// The same of a plan.
    pub fn of_plan(bad: pf_script::plan::fault::BadRecord) -> RawBadRecord
        ensures { result ≡ raw_bad_plan bad }
    {
        let (number, line) = (bad.number, bad.line);
        RawBadRecord {
            number,
            line,
            field: bad.fault.field as u64,
        }
    }
}
