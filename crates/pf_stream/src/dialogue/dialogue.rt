ghost use Rattle.std.specs.Prelude.{◌≡◌, ◌<◌, ◌≤◌, ℕ, List, length, take, OnOk, IfOk, OnErr};

/// Nothing more can be heard.
#[derive(Clone, Copy)]
pub struct Deaf;

/// Nothing more can be told.
#[derive(Clone, Copy)]
pub struct Mute;

/// Whom lines come from and their answers go to.
pub trait Dialogue {
    // it can still hear and tell
    ghost is_open: { Self → Type 0 };

    // it was asked for more, and gave these bytes: none at the end alone
    ghost hears: { Self → List ℕ → Self → Type 0 };

    // it was asked for more, and failed
    ghost is_deaf: { Self → Self → Type 0 };

    // it was told a text, all of which is out
    ghost tells: { Self → List ℕ → Self → Type 0 };

    // it was told a text, and failed: a front of it may be out
    ghost is_mute: { Self → List ℕ → Self → Type 0 };

    /// Asks for more: gives how many bytes were put at the front of the buffer, which must have room for one, and waits for one if
    /// need be; 0 at the end.
    fn hear(&mut self, buf: &mut [u8]) -> Result<usize, Deaf>
        requires open { is_open self.old }
        requires room { 0 < length buf.old }
        ensures bound { IfOk result (λ n. n ≤ length buf.new) }
        ensures open { OnOk result (is_open self.new) }
        ensures ok { IfOk result (λ n. hears self.old (take n buf.new) self.new) }
        ensures err { OnErr result (is_deaf self.old self.new) };

    /// Tells a text, and holds none of it back.
    fn tell(&mut self, text: &[u8]) -> Result<(), Mute>
        requires { is_open self.old }
        ensures open { OnOk result (is_open self.new) }
        ensures ok { OnOk result (tells self.old text.now self.new) }
        ensures err { OnErr result (is_mute self.old text.now self.new) };
}
