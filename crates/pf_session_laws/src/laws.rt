ghost use Rattle.pf_session_laws.specs.Crashed.{BegunAreKept, CrashesLeaveTold, ToldAreKept};
ghost use Rattle.pf_session_laws.specs.Resumed.{JournalsBeginAgain, ScriptsBeginAgain};
ghost use Rattle.pf_session_laws.specs.Shown.{SessionsShowTheirScripts};

use pf_session::shows::Shows;
use pf_stream::dialogue::dialogue::Dialogue;
use pf_version_laws::laws::scripts_are_retold;
use sqlite_disk::Disk;

/// The script of a session that has its settings begins the same session again: its settings and its desk, the names and the labels.
/// What there is to take back and whether a line was bad begin anew.
pub fn scripts_begin_again()
    ensures { ScriptsBeginAgain }
{}

/// So does a journal that has the records of a session.
pub fn journals_begin_again()
    ensures { JournalsBeginAgain }
{}

/// What a session shows of its own desk is what the program gives of its script, where the script of version 2 that belongs to it is
/// short enough.
pub fn sessions_show_their_scripts()
    ensures { SessionsShowTheirScripts }
{
    scripts_are_retold();
}

/// A session that begins on a file that is new, or has the records of a session, is kept in it.
pub fn begun_are_kept<D: Disk>()
    ensures { BegunAreKept D.seen D.may_leave D.is_clean }
{}

/// Whenever more is asked for in a sitting, whoever shows what is wanted there, the session that was told so far is kept.
pub fn told_are_kept<V: Shows, D: Disk, T: Dialogue>()
    ensures { ToldAreKept V.shows D.seen D.may_leave D.is_clean D.is_mixing T.hears T.is_deaf T.tells T.is_mute }
{}

/// Whatever such a sitting comes to, a crash leaves a journal that begins the session again as it was told, after some more lines maybe,
/// each of them whole. On disks that leave each byte of a torn write as it was or as it was written, it opens.
pub fn crashes_leave_told<V: Shows, D: Disk, T: Dialogue>()
    ensures { CrashesLeaveTold V.shows D.seen D.may_leave D.is_clean D.is_mixing T.hears T.is_deaf T.tells T.is_mute }
{}
