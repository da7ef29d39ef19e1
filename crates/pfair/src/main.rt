//! The program `pfair`: hands its words and streams to `answer_words`, and exits with the status that this answers. The streams wait,
//! though they were set not to. Where standard input is a terminal, `prompt_words` may tell how a script or a list ends there.
#![tactic(auto)]

use pf_cli::host_journals::HostJournals;
use pf_cli::kept_writer::KeptWriter;
use pf_cli::patient::Patient;
use pf_cli::program::{answer_words, prompt_words, tell_unread};
use pf_cli::sink::CountedWriter;
use pf_cli::source::CountedReader;
use std::io::IsTerminal;
use std::process::ExitCode;
use std::{env, io};

fn main(rt: HostRuntime) -> ExitCode {
    let mut faults = CountedWriter::new(Patient::new(rt.stderr(), &rt));
    let words = match read_words(&rt) {
        Ok(words) => words,
        Err(fault) => return ExitCode::from(tell_unread(&fault, &mut faults)),
    };
    let input = rt.stdin();
    let is_terminal = input.is_terminal();
    if is_terminal {
        prompt_words(&rt, &words, &mut faults);
    }
    let mut reader = CountedReader::new(Patient::new(input, &rt));
    let mut writer = KeptWriter::new(Patient::new(rt.stdout(), &rt));
    let status = answer_words(
        &rt,
        &words,
        is_terminal,
        HostJournals::new(&rt),
        &mut reader,
        &mut writer,
        &mut faults,
    );
    ExitCode::from(status)
}

/// The words after the program's own name.
fn read_words(rt: &HostRuntime) -> io::Result<Vec<String>> {
    Ok(env::args(rt)?.skip(1).collect(rt.alloc())?)
}
