ghost use Rattle.std.specs.Prelude.{◌≡◌, ◌≤◌, None, if◌then◌else◌};
ghost use Rattle.pf_tally.specs.Figures.{is_moved, is_resumed, migrations_behind, preemptions_behind};

/// 1 where the quantum is on another processor than the one before.
fn one_if_moved(before: Option<u32>, processor: u32) -> u64
    ensures { result ≡ (if is_moved before processor then 1 else 0) }
{
    match before {
        Some(last) if last != processor => 1,
        _ => 0,
    }
}

/// How many of the quanta on these processors are on another one than the quantum before.
pub(crate) fn migrations(processors: &[u32]) -> u64
    ensures { result ≡ migrations_behind None processors.now }
{
    let mut migrations = 0;
    let mut before = None;
    for processor in processors {
        migrations += one_if_moved(before, *processor);
        before = Some(*processor);
    }
    migrations
}

/// 1 where the quantum in this slot, after `done` others, goes on with a job after a pause.
fn one_if_resumed(cost: u64, done: u64, before: Option<u64>, slot: u64) -> u64
    requires { 1 ≤ cost }
    ensures { result ≡ (if is_resumed cost done before slot then 1 else 0) }
{
    match before {
        Some(last) if slot.saturating_sub(last) != 1 && done % cost != 0 => 1,
        _ => 0,
    }
}

/// How many of the quanta in these slots go on with a job, of `cost` quanta, after a pause.
pub(crate) fn preemptions(cost: u64, slots: &[u64]) -> u64
    requires { 1 ≤ cost }
    ensures { result ≡ preemptions_behind cost 0 None slots.now }
{
    let mut preemptions = 0;
    let mut done = 0;
    let mut before = None;
    for slot in slots {
        preemptions += one_if_resumed(cost, done, before, *slot);
        done += 1;
        before = Some(*slot);
    }
    preemptions
}
