ghost use Rattle.std.specs.Prelude.{◌≡◌};
ghost use Rattle.pf_share.specs.Refusals.{unread_code};

use std::error::Error;
use std::fmt;

/// Why a viewer reads nothing: the readers' table gave no entry, or the snapshot took no further owner.
#[derive(Clone, Copy, Debug, PartialEq, Eq)]
pub struct Unread;

impl Unread {
    /// Its number in the table of refusals, 37.
    pub fn code(self) -> u64
        ensures { result ≡ unread_code }
    {
        37
    }
}

impl fmt::Display for Unread {
    fn fmt<W: fmt::Write>(&self, f: &mut fmt::Formatter<W>) -> fmt::Result {
        f.write_str("no snapshot could be read")
    }
}

impl Error for Unread {}
