ghost use Rattle.std.specs.Prelude.{◌≡◌};
ghost use Rattle.pf_answers.specs.Keys.{changed_key, code_key, misses_key, reason_key, refused_key};

/// What stands before a refusal.
#[tactic(auto, unfolding(crate::specs::Keys::refused_key))]
pub(crate) fn refused_key() -> &'static [u8]
    ensures { result.now ≡ refused_key }
{
    b"{\"refused\":"
}

/// What stands before the denials that there were and are.
#[tactic(auto, unfolding(crate::specs::Keys::changed_key))]
pub(crate) fn changed_key() -> &'static [u8]
    ensures { result.now ≡ changed_key }
{
    b"\"changed\":{\"denials\":["
}

/// What stands before the missed windows.
#[tactic(auto, unfolding(crate::specs::Keys::misses_key))]
pub(crate) fn misses_key() -> &'static [u8]
    ensures { result.now ≡ misses_key }
{
    b",\"misses\":["
}

/// What stands before the number of a refusal.
#[tactic(auto, unfolding(crate::specs::Keys::code_key))]
pub(crate) fn code_key() -> &'static [u8]
    ensures { result.now ≡ code_key }
{
    b"{\"code\":"
}

/// What stands before its name.
#[tactic(auto, unfolding(crate::specs::Keys::reason_key))]
pub(crate) fn reason_key() -> &'static [u8]
    ensures { result.now ≡ reason_key }
{
    b",\"reason\":\""
}
