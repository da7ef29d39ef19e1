ghost use Rattle.pf_journal.specs.Recorder.Told.{FilesHaveAll, FilesHaveTold};

use pf_stream::dialogue::dialogue::Dialogue;
use pf_stream::dialogue::scripted::Scripted;
use sqlite_disk::Disk;

/// Whenever more is asked for in a sitting that is kept in a file, the records that the file got are the lines that the script got, and
/// a crash leaves them.
pub fn files_have_what_was_told<S: Scripted, D: Disk, T: Dialogue>()
    ensures { FilesHaveTold S.answers S.script D.seen D.may_leave D.is_clean D.is_mixing T.hears T.is_deaf T.tells T.is_mute }
{}

/// So it is when such a sitting has come to its end.
pub fn files_have_all<S: Scripted, D: Disk, T: Dialogue>()
    ensures { FilesHaveAll S.answers S.script D.seen D.may_leave D.is_clean D.is_mixing T.hears T.is_deaf T.tells T.is_mute }
{}
