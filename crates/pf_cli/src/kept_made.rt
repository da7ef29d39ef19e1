//! A session with a journal, as it begins.
ghost use Rattle.std.specs.Prelude.{◌≡◌, ℕ, List, [], not, is_some, IfErr, IfOk, option_map, None};
ghost use Rattle.pf_journal_file.specs.Faults.{IsOutcome};
ghost use Rattle.pf_journal_session.specs.Journaled.{DoesNotBegin as IsNotBegun};
ghost use Rattle.pf_journal.specs.Kept.{IsFound};
ghost use Rattle.pf_script_notes.specs.Faults.{IsFaultNote};
ghost use Rattle.pf_arguments.specs.Asked.{desk_named};
ghost use Rattle.pf_cli.specs.Desks.{manner_of};
ghost use Rattle.pf_cli.specs.Journals.{BeginsOn, DoesNotBeginOn, told_sizes};
ghost use Rattle.pf_cli.specs.Noted.{notes_in};

use crate::manner::manner_of;
use crate::noted::Noted;
use crate::notes::unread_note;
use crate::script_source::{read_file, told_name};
use pf_arguments::desk_words::DeskWords;
use pf_journal::found::Found;
use pf_journal::recorder::recorder::Recorder;
use pf_journal_file::journal_fault::JournalFault;
use pf_journal_file::journals::{Journals, find_journal};
use pf_journal_file::sizes::Sizes;
use pf_journal_session::Disk;
use pf_journal_session::begun::{Opened, open_journal};
use pf_journal_session::unopened::Unopened;
use pf_script_notes::behind_fault::fault_note;
use pf_session_turns::files::{FileSaver, Locks};
use pf_session_turns::sitter::Sitter;
use pf_session_views::desk_views::DeskViews;
use pf_vocabulary::fault::fault::Fault;
use std::alloc::{AllocError, Global};

/// A session with a journal, as it begins.
#[derive(Drop)]
pub(crate) struct Made<'a, H: AllocGlobal + Locks, D: Disk> {
    /// Who answers, and keeps what was answered.
    pub(crate) recorder: Recorder<Sitter<FileSaver<'a, H>, DeskViews>, D>,
    /// What is told of the journal.
    pub(crate) note: Vec<u8>,
}

/// The session that begins on the file of this path, after the records of a script where one is named.
///
/// # Errors
///
/// Where the file can't be had or keeps no such session, where the script can't be read, where a record of either is bad, and where
/// memory is refused: what is told of that.
pub(crate) fn make_of<'a, H: AllocGlobal + Locks, J: Journals>(
    rt: &'a H,
    words: &DeskWords,
    path: &str,
    journals: J,
) -> Result<Made<'a, H, J::File>, Noted>
    ensures made { IfOk result (λ m. BeginsOn J.File.seen J.File.may_leave J.File.is_usable J.File.is_clean (manner_of (desk_named words.now)) (desk_named words.now).script path.now m.recorder m.note.items) }
    ensures unmade { IfErr result (λ n. DoesNotBeginOn (manner_of (desk_named words.now)) (desk_named words.now).script path.now n) }
{
    match find_journal(rt.alloc(), journals, path) {
        Ok(found) => make_on(rt, words, path, found),
        Err(fault) => Err(refused(rt.alloc(), words, path, fault)),
    }
}

/// The session that begins on a file as it was found.
fn make_on<'a, H: AllocGlobal + Locks, D: Disk + Drop>(
    rt: &'a H,
    words: &DeskWords,
    path: &str,
    found: Found<D>,
) -> Result<Made<'a, H, D>, Noted>
    requires { IsFound D.Disk.seen D.Disk.may_leave D.Disk.is_usable D.Disk.is_clean found }
    ensures made { IfOk result (λ m. BeginsOn D.Disk.seen D.Disk.may_leave D.Disk.is_usable D.Disk.is_clean (manner_of (desk_named words.now)) (desk_named words.now).script path.now m.recorder m.note.items) }
    ensures unmade { IfErr result (λ n. DoesNotBeginOn (manner_of (desk_named words.now)) (desk_named words.now).script path.now n) }
{
    let Some(file) = &words.script else {
        return make_with(rt, words, path, found, None);
    };
    match read_file(rt, file.as_str()) {
        Ok(script) => make_with(rt, words, path, found, Some(&script)),
        Err(reading) => {
            drop(found);
            let fault = Fault::from(reading);
            let notes = unread_note(rt, true, &words.script, fault);
            Err(Noted {
                outcome: Err(fault),
                notes,
            })
        }
    }
}

/// The session that begins on a file as it was found, after these bytes of a script where one is named.
fn make_with<'a, H: AllocGlobal + Locks, D: Disk + Drop>(
    rt: &'a H,
    words: &DeskWords,
    path: &str,
    found: Found<D>,
    script: Option<&[u8]>,
) -> Result<Made<'a, H, D>, Noted>
    requires found { IsFound D.Disk.seen D.Disk.may_leave D.Disk.is_usable D.Disk.is_clean found }
    requires named { is_some script ≡ is_some words.now.script }
    ensures made { IfOk result (λ m. BeginsOn D.Disk.seen D.Disk.may_leave D.Disk.is_usable D.Disk.is_clean (manner_of (desk_named words.now)) (desk_named words.now).script path.now m.recorder m.note.items) }
    ensures unmade { IfErr result (λ n. DoesNotBeginOn (manner_of (desk_named words.now)) (desk_named words.now).script path.now n) }
{
    let manner = manner_of(words);
    match open_journal(
        rt.alloc(),
        found,
        manner,
        script,
        FileSaver::new(rt),
        DeskViews,
    ) {
        Ok(opened) => with_note(rt.alloc(), words, path, opened),
        Err(unopened) => Err(noted_of(rt.alloc(), words, path, script, unopened)),
    }
}

/// The session that began, with what is told of its journal.
///
/// # Errors
///
/// Where memory is refused for that.
fn with_note<'a, H: AllocGlobal + Locks, D: Disk + Drop>(
    alloc: Global,
    words: &DeskWords,
    path: &str,
    opened: Opened<FileSaver<'a, H>, DeskViews, D>,
) -> Result<Made<'a, H, D>, Noted>
    ensures made { IfOk result (λ m. (m.recorder ≡ opened.entry.recorder) × (m.note.items ≡ told_sizes words.now.quiet path.now opened.entry.sizes)) }
    ensures unmade { IfErr result (λ n. DoesNotBeginOn (manner_of (desk_named words.now)) (desk_named words.now).script path.now n) }
{
    match opening_note(alloc, words.quiet, path.as_bytes(), opened.sizes) {
        Ok(note) => Ok(Made {
            recorder: opened.recorder,
            note,
        }),
        Err(_) => {
            drop(opened);
            Err(refused(alloc, words, path, JournalFault::NoMemory))
        }
    }
}

/// How much a journal has, as it is told; where the words ask for quiet, only of one of which bytes were cut, or whose script is longer than one may be.
fn opening_note(
    alloc: Global,
    quiet: bool,
    path: &[u8],
    sizes: Sizes,
) -> Result<Vec<u8>, AllocError>
    ensures { IfOk result (λ note. note.items ≡ told_sizes quiet path.now sizes) }
{
    if quiet && sizes.cut == 0 && !sizes.is_long {
        return Ok(Vec::new(alloc));
    }
    sizes.line(alloc, path)
}

/// What is told where no session begins on a file that was found.
fn noted_of(
    alloc: Global,
    words: &DeskWords,
    path: &str,
    script: Option<&[u8]>,
    unopened: Unopened,
) -> Noted
    requires named { is_some script ≡ is_some words.now.script }
    requires unopened { (bytes : List ℕ) × IsNotBegun (manner_of (desk_named words.now)) (option_map (λ s. s.now) script) bytes unopened }
    ensures { DoesNotBeginOn (manner_of (desk_named words.now)) (desk_named words.now).script path.now result }
{
    match unopened {
        Unopened::Journal(fault) => refused(alloc, words, path, fault),
        Unopened::Record(fault, lines) => Noted {
            outcome: Err(fault),
            notes: fault_note(alloc, path.as_bytes(), &lines, !words.quiet, None, fault),
        },
        Unopened::Script(fault) => Noted {
            outcome: Err(fault),
            notes: fault_note(
                alloc,
                told_name(&words.script),
                script.unwrap_or(b""),
                !words.quiet,
                None,
                fault,
            ),
        },
    }
}

/// What is told where a file can't be had, or keeps no such session.
fn refused(alloc: Global, words: &DeskWords, path: &str, fault: JournalFault) -> Noted
    ensures outcome { IsOutcome path.now (not words.now.quiet) fault result.outcome }
    ensures notes { notes_in result.notes ≡ [] }
{
    Noted {
        outcome: fault.outcome(alloc, path.as_bytes(), !words.quiet),
        notes: Ok(Vec::new(alloc)),
    }
}
