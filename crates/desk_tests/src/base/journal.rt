//! What opening makes of a file.

use pf_journal::found::Found;
use sqlite_disk::{Disk, Fuse, Memory};
use std::alloc::{AllocError, Global};
use std::io;
use std::process::Abort;

/// The bytes of files, and what opening makes of them: how many bytes are cut, or none where the file is no journal of this
/// version or is damaged; and its bytes then.
const OPENED: [(&[u8], Option<usize>, &[u8]); 17] = [
    (b"", Some(0), b" plan,1\n#"),
    (b"#", Some(0), b" plan,1\n#"),
    (b" pfa", Some(0), b" plan,1\n#"),
    (b" plan,1\n#", Some(0), b" plan,1\n#"),
    (
        b" plan,1\n settings,2,6\n#",
        Some(0),
        b" plan,1\n settings,2,6\n#",
    ),
    (
        b" plan,1\n settings,2,6\n#join,0,1,2,3\n#",
        Some(14),
        b" plan,1\n settings,2,6\n#",
    ),
    (
        b" plan,1\n settings,2,6\n",
        Some(0),
        b" plan,1\n settings,2,6\n#",
    ),
    (
        b" plan,1\n settings,2,6\n%",
        Some(0),
        b" plan,1\n settings,2,6\n#",
    ),
    (
        b" plan,1\n settings,2,6\n ",
        Some(0),
        b" plan,1\n settings,2,6\n#",
    ),
    (
        b" plan,1\n settings,2,6\n%join,0,1,2,3\n#",
        None,
        b" plan,1\n settings,2,6\n%join,0,1,2,3\n#",
    ),
    (
        b" plan,1\n settings,2,6\n join,0",
        None,
        b" plan,1\n settings,2,6\n join,0",
    ),
    (
        b" plan,1\n\x00settings,2,6\n#",
        None,
        b" plan,1\n\x00settings,2,6\n#",
    ),
    (b" plan,1\n  ", None, b" plan,1\n  "),
    (b"plan,1\nsettings,2,6\n", None, b"plan,1\nsettings,2,6\n"),
    (
        b" pfair,2\n settings,2,6\n#",
        None,
        b" pfair,2\n settings,2,6\n#",
    ),
    (b" settings,2,6\n#", None, b" settings,2,6\n#"),
    (b"# my plan\n plan,1\n", None, b"# my plan\n plan,1\n"),
];

/// The calls of an empty file at its opening: it is synced, measured and read, and its heading is written in two steps, each synced.
const OPENING_CALLS: u64 = 7;

/// The lines of the script that is put whole.
const LINES: usize = 4_000;

/// A file in memory with these bytes.
fn file_of(alloc: Global, bytes: &[u8]) -> io::Result<Memory> {
    let mut file = Memory::new(alloc);
    file.write_at(0, bytes)?;
    Ok(file)
}

/// What opening makes of a file, where its calls succeed.
fn opened(alloc: Global, file: Memory) -> Option<(Option<usize>, Memory)> {
    if !file.may_be_used() {
        return None;
    }
    let found = Found::read(alloc, file).ok()?;
    let torn = found.torn_bytes();
    match found.open() {
        Ok(journal) => Some((Some(torn), journal.into_disk())),
        Err(failed) => Some((None, failed.disk)),
    }
}

/// Fails where another number of bytes is cut, or other bytes are left.
fn is_opened(rt: &(impl Abort + AllocGlobal), bytes: &[u8], cut: Option<usize>, want: &[u8]) {
    let file = file_of(rt.alloc(), bytes).expect(rt, "it is written");
    let (torn, file) = opened(rt.alloc(), file).expect(rt, "it is opened");
    assert_eq!(rt; torn, cut);
    assert_eq!(rt; file.bytes(), want);
}

#[test]
fn a_torn_end_is_cut_and_another_file_is_left(rt: HostRuntime) {
    for (bytes, cut, want) in OPENED {
        is_opened(&rt, bytes, cut, want);
    }
}

/// Fails where a file that begins so, with so many bytes more, is cut by another number of bytes.
fn is_cut(rt: &(impl Abort + AllocGlobal), front: &[u8], more: usize, cut: Option<usize>) {
    let mut bytes = front.to_vec(rt.alloc()).expect(rt, "it is copied");
    bytes
        .resize(front.len().saturating_add(more), b' ')
        .expect(rt, "it has memory");
    let want = if cut.is_some() { front } else { &bytes };
    is_opened(rt, &bytes, cut, want);
}

#[test]
fn a_shut_gate_has_no_more_behind_it_than_a_batch(rt: HostRuntime) {
    is_cut(&rt, b" plan,1\n settings,2,6\n#", 65_538, Some(65_538));
    is_cut(&rt, b" plan,1\n settings,2,6\n#", 65_539, None);
}

#[test]
fn a_shut_gate_behind_the_heading_has_any_number(rt: HostRuntime) {
    is_cut(&rt, b" plan,1\n#", 65_539, Some(65_539));
    is_cut(&rt, b" plan,1\n#", 300_000, Some(300_000));
}

/// A script with the lines that are put whole.
fn script_of(alloc: Global) -> Result<Vec<u8>, AllocError> {
    let mut script = Vec::new(alloc);
    for _ in 0..LINES {
        script.extend_from_slice(b"join,0,1,2,3\n")?;
    }
    Ok(script)
}

/// An empty file into which a script was put whole, where so many calls of the putting succeed; and whether that succeeded.
fn put_whole(alloc: Global, script: &[u8], calls: u64) -> Option<(bool, Fuse<Memory>)> {
    let file = Fuse::new(Memory::new(alloc), OPENING_CALLS.saturating_add(calls));
    if !file.may_be_used() {
        return None;
    }
    match Found::read(alloc, file).ok()?.open() {
        Ok(mut journal) => {
            let put = journal.put_whole(alloc, script).is_ok();
            Some((put, journal.into_disk()))
        }
        Err(_) => None,
    }
}

/// How many records a file has, and how many bytes its opening cuts.
fn sizes(alloc: Global, file: Memory) -> Option<(usize, usize)> {
    if !file.may_be_used() {
        return None;
    }
    let found = Found::read(alloc, file).ok()?;
    let had = (found.records(), found.torn_bytes());
    match found.open() {
        Ok(_) => Some(had),
        Err(_) => None,
    }
}

/// Fails where the file has other records, or is cut by another number of bytes, after so many calls of a putting succeeded.
fn is_put(rt: &(impl Abort + AllocGlobal), calls: u64, had: (usize, usize)) {
    let script = script_of(rt.alloc()).expect(rt, "it has memory");
    let (put, file) = put_whole(rt.alloc(), &script, calls).expect(rt, "it is opened");
    assert_eq!(rt; put, calls >= 4);
    let left = file_of(rt.alloc(), file.inner().bytes()).expect(rt, "it is written");
    assert_eq!(rt; sizes(rt.alloc(), left), Some(had));
}

#[test]
fn a_script_goes_in_whole_or_not_at_all(rt: HostRuntime) {
    is_put(&rt, 0, (0, 0));

    // The lines are behind the gate, ..
    is_put(&rt, 1, (0, 56_000));
    is_put(&rt, 2, (0, 56_000));

    // .. which the third call opens.
    is_put(&rt, 3, (LINES, 0));
    is_put(&rt, 4, (LINES, 0));
}
