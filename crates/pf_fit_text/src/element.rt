ghost use Rattle.std.specs.Prelude.{◌≡◌, ◌++◌, OnOk};

use std::alloc::AllocError;

/// Appends some text.
///
/// # Errors
///
/// Where memory is refused; the text then stays as it was.
pub(crate) fn push_element(text: &mut Vec<u8>, element: &str) -> Result<(), AllocError>
    ensures { OnOk result (text.new.items ≡ text.old.items ++ element.now) }
{
    text.extend_from_slice(element.as_bytes())
}
