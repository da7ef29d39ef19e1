ghost use Rattle.std.specs.Prelude.{◌≡◌, ◌++◌, replicate, OnOk, OnErr};

use std::alloc::AllocError;

/// Appends the value n times.
///
/// # Errors
///
/// Where memory is refused: the list is as before.
pub(crate) fn grow<T: Copy>(list: &mut Vec<T>, n: usize, value: T) -> Result<(), AllocError>
    ensures ok { OnOk result (list.new.items ≡ list.old.items ++ replicate n value) }
    ensures err { OnErr result (list.new.items ≡ list.old.items) }
{
    list.reserve(n)?;
    for step in 0..n {
        list.push_reserved(value);
    }
    Ok(())
}
