ghost use Rattle.std.specs.Prelude.{◌≡◌, IfErr, IfOk};
ghost use Rattle.std.specs.Option.{option_map};
ghost use Rattle.pf_journal.specs.Kept.{IsFound, found_bytes, found_disk};
ghost use Rattle.pf_journal_session.specs.Journaled.{Begins, DoesNotBegin, IsBegunOn, IsKeptOn, IsUnbegun, IsUnwritten, refused_file, session_on};
ghost use Rattle.pf_session_turns.specs.Opening.{IsOpened};

use crate::unopened::Unopened;
use pf_answers::manner::Manner;
use pf_journal::failed::Failed;
use pf_journal::found::Found;
use pf_journal::recorder::recorder::Recorder;
use pf_journal::state::State;
use pf_journal_file::journal_fault::JournalFault;
use pf_journal_file::sizes::Sizes;
use pf_session::session::Session;
use pf_session::shows::Shows;
use pf_session_turns::opening::open_script;
use pf_session_turns::saver::Saver;
use pf_session_turns::sitter::Sitter;
use pf_vocabulary::fault::fault::Fault;
use sqlite_disk::Disk;
use std::alloc::Global;

/// A session that began on a file.
#[derive(Drop)]
pub struct Opened<S: Saver, V: Shows, D: Disk> {
    /// Who answers, and keeps in the file what was answered.
    pub recorder: Recorder<Sitter<S, V>, D>,
    /// How much the file has.
    pub sizes: Sizes,
}

/// Begins a session on a file as it was found: after the records of the file, without answers; where it has none, after those of a
/// script, if one is given, which then go into the file. There is nothing to take back yet.
///
/// # Errors
///
/// `Journal` with `NoHeading` where the file is no journal, with `Damaged` where it is damaged, with `HasRecords` where a script is given and it has records, else where it
/// can't be opened or written; `Record` where a record of the file is bad, and `Script` where one of the script is, or where memory is
/// refused meanwhile. Nothing was written to the file, but where it could not be written.
#[tactic(auto, using(crate::proofs::Untaken::untaken_of))]
pub fn open_journal<S: Saver + Drop, V: Shows + Drop, D: Disk + Drop>(
    alloc: Global,
    found: Found<D>,
    manner: Manner,
    script: Option<&[u8]>,
    saver: S,
    views: V,
) -> Result<Opened<S, V, D>, Unopened>
    requires { IsFound D.Disk.seen D.Disk.may_leave D.Disk.is_usable D.Disk.is_clean found }
    ensures begins { IfOk result (λ o. Begins D.Disk.seen D.Disk.may_leave D.Disk.is_clean manner (option_map (λ s. s.now) script.entry) (found_disk found) (found_bytes found) o.recorder o.sizes) }
    ensures unopened { IfErr result (λ u. DoesNotBegin manner (option_map (λ s. s.now) script.entry) (found_bytes found) u) }
{
    match begin_on(alloc, &found, manner, script) {
        Ok(session) => keep_session(alloc, found, session, saver, views),
        Err(unopened) => Err(unopened),
    }
}

/// The session that begins on a file, which is not written to.
///
/// # Errors
///
/// Those of `open_journal` but for a file that can't be opened or written.
fn begin_on<D: Disk + Drop>(
    alloc: Global,
    found: &Found<D>,
    manner: Manner,
    script: Option<&[u8]>,
) -> Result<Session, Unopened>
    requires { IsFound D.Disk.seen D.Disk.may_leave D.Disk.is_usable D.Disk.is_clean found.now }
    ensures begun { IfOk result (λ s. IsBegunOn manner (option_map (λ t. t.now) script.entry) (found_bytes found.now) s) }
    ensures unbegun { IfErr result (λ u. DoesNotBegin manner (option_map (λ t. t.now) script.entry) (found_bytes found.now) u) }
{
    if let Some(fault) = refusal(found, script.is_some()) {
        return Err(Unopened::Journal(fault));
    }
    match session_on(alloc, found, manner, script) {
        Ok(session) => Ok(session),
        Err(fault) => Err(unbegun(alloc, found, script.is_some(), fault)),
    }
}

/// Why a file is none for a session, with a script that is to go first or without one.
fn refusal<D: Disk + Drop>(found: &Found<D>, has_script: bool) -> Option<JournalFault>
    requires { IsFound D.Disk.seen D.Disk.may_leave D.Disk.is_usable D.Disk.is_clean found.now }
    ensures { result ≡ refused_file has_script (found_bytes found.now) }
{
    match found.state() {
        State::Other => Some(JournalFault::NoHeading),
        State::Damaged => Some(JournalFault::Damaged(found.damaged_record())),
        State::New | State::Journal => {
            if has_script && found.records() != 0 {
                return Some(JournalFault::HasRecords);
            }
            None
        }
    }
}

/// The session that begins on a file, after a script where one is given.
///
/// # Errors
///
/// `BadRecord` at the first bad record, and `NoMemory` where memory is refused.
fn session_on<D: Disk + Drop>(
    alloc: Global,
    found: &Found<D>,
    manner: Manner,
    script: Option<&[u8]>,
) -> Result<Session, Fault>
    requires { IsFound D.Disk.seen D.Disk.may_leave D.Disk.is_usable D.Disk.is_clean found.now }
    ensures { IsOpened (session_on manner (option_map (λ s. s.now) script.entry) (found_bytes found.now)) result }
{
    if let Some(script) = script {
        return open_script(alloc, manner, script);
    }
    if found.records() == 0 {
        return Ok(Session::new(alloc, manner)?);
    }
    open_script(alloc, manner, found.script())
}

/// Why no session began, where its records were not carried out.
fn unbegun<D: Disk + Drop>(
    alloc: Global,
    found: &Found<D>,
    has_script: bool,
    fault: Fault,
) -> Unopened
    requires { IsFound D.Disk.seen D.Disk.may_leave D.Disk.is_usable D.Disk.is_clean found.now }
    ensures { IsUnbegun has_script (found_bytes found.now) fault result }
{
    if has_script {
        return Unopened::Script(fault);
    }
    match found.script().to_vec(alloc) {
        Ok(lines) => Unopened::Record(fault, lines),
        Err(_) => Unopened::Journal(JournalFault::NoMemory),
    }
}

/// Has a session kept in a file, which has nothing to take back from there on.
///
/// # Errors
///
/// `Journal` where the file can't be opened or written.
#[tactic(auto, using(crate::proofs::Untaken::unwritten_of))]
fn keep_session<S: Saver + Drop, V: Shows + Drop, D: Disk + Drop>(
    alloc: Global,
    found: Found<D>,
    mut session: Session,
    saver: S,
    views: V,
) -> Result<Opened<S, V, D>, Unopened>
    requires { IsFound D.Disk.seen D.Disk.may_leave D.Disk.is_usable D.Disk.is_clean found }
    ensures kept { IfOk result (λ o. IsKeptOn D.Disk.seen D.Disk.may_leave D.Disk.is_clean session (found_disk found) (found_bytes found) o.recorder o.sizes) }
    ensures unkept { IfErr result (IsUnwritten (found_bytes found) session) }
{
    let sizes = Sizes::of(&session, found.torn_bytes() as u64);
    session.forget_made();
    match Recorder::open(alloc, found, Sitter::new(session, saver, views)) {
        Ok(recorder) => Ok(Opened { recorder, sizes }),
        Err(Failed { error, disk }) => {
            drop(disk);
            Err(Unopened::Journal(JournalFault::of_adding(error)))
        }
    }
}
