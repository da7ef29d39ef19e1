//! Words that the program answers without a script.

use pf_cli::files::Locks;
use pf_cli::host_journals::HostJournals;
use pf_cli::kept_writer::KeptWriter;
use pf_cli::program::main_words;
use pf_cli::sink::CountedWriter;
use pf_cli::source::CountedReader;
use std::sync::Wait;
use std::thread::Threads;

/// The status of the program for these words, with an input that is empty, and how many bytes it wrote and told.
fn answer<H: AllocGlobal + Locks + Threads + Wait + Sync>(
    rt: &H,
    journals: HostJournals<'_>,
    words: &[&str],
) -> (u8, usize, usize) {
    let (mut text, mut told) = (Vec::new(rt.alloc()), Vec::new(rt.alloc()));
    let mut reader = CountedReader::new(b"".as_slice());
    let status = main_words(
        rt,
        words,
        false,
        journals,
        &mut reader,
        &mut KeptWriter::new(&mut text),
        &mut CountedWriter::new(&mut told),
    );
    (status, text.len(), told.len())
}

#[test]
fn main_words_shows_help(rt: HostRuntime) {
    let (status, written, told) = answer(&rt, HostJournals::new(&rt), &["--help"]);
    assert_eq!(rt; status, 0);
    assert!(rt; written > 0);
    assert_eq!(rt; told, 0);
}

#[test]
fn main_words_refuses_words(rt: HostRuntime) {
    let (status, written, told) = answer(&rt, HostJournals::new(&rt), &["fly"]);
    assert_eq!(rt; status, 2);
    assert_eq!(rt; written, 0);
    assert!(rt; told > 0);
    let (status, written, _) = answer(&rt, HostJournals::new(&rt), &["run", "--format", "tablets"]);
    assert_eq!(rt; status, 2);
    assert_eq!(rt; written, 0);
}
