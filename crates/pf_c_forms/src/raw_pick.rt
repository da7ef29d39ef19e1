ghost use Rattle.std.specs.Prelude.{◌≡◌, Option};
ghost use Rattle.pf_c_forms.specs.Picks.{raw_pick};

use pf_order::pick::Pick;

/// Who runs on a processor, as C gets it: 0 and 0 where it is idle.
#[repr(C)]
#[derive(Clone, Copy)]
pub struct RawPick {
    /// The task's number, 1 to 4,095.
    pub task: u32,
    /// The subtask's number, from 1.
    pub sub: u32,
}

impl RawPick {
    /// The pick of a processor, or none.
    pub fn of(place: Option<Pick>) -> RawPick
        ensures { result ≡ raw_pick place }
    {
        match place {
            Some(pick) => RawPick {
                task: pick.task,
                sub: pick.sub,
            },
            None => RawPick { task: 0, sub: 0 },
        }
    }
}
