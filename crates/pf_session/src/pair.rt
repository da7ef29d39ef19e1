ghost use Rattle.std.specs.Prelude.{OnErr, OnOk};
ghost use Rattle.pf_session.specs.Edits.{AreLonger, AreSame};

use std::alloc::AllocError;

/// Appends to a script and to a text.
///
/// # Errors
///
/// Where memory is refused: both are as before.
pub(crate) fn extend_both(
    script: &mut Vec<u8>,
    line: &[u8],
    text: &mut Vec<u8>,
    answer: &[u8],
) -> Result<(), AllocError>
    ensures ok { OnOk result (AreLonger script.old.items line.now text.old.items answer.now script.new.items text.new.items) }
    ensures err { OnErr result (AreSame script.old.items text.old.items script.new.items text.new.items) }
{
    script.reserve(line.len())?;
    text.extend_from_slice(answer)?;
    match script.extend_from_slice(line) {
        Ok(()) => Ok(()),
        Err(_) => unreachable!(),
    }
}
