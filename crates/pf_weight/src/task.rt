ghost use Rattle.std.specs.Prelude.{◌≡◌, ◌≤◌};
ghost use Rattle.pf_weight.specs.declared.task.TheConstants.{LARGEST_TASK};

/// The greatest task number; the least is 1.
pub const LARGEST_TASK: u64 = 4095;

/// A task's number as wide as it is after the check of its event: in what an engine keeps, in picks, misses and figures.
pub fn number_of(task: u64) -> u32
    requires { task ≤ LARGEST_TASK }
    ensures { result ≡ task }
{
    task as u32
}
