use pf_journal_file::journal_fault::JournalFault;
use pf_vocabulary::fault::fault::Fault;

/// Why no session began on a file.
#[derive(Drop)]
pub enum Unopened {
    /// The file keeps none.
    Journal(JournalFault),
    /// A record of the file is bad, by its number, or memory was refused while its records were carried out; and the lines of the file
    /// as a script.
    Record(Fault, Vec<u8>),
    /// So is one of the script that is to go first.
    Script(Fault),
}
