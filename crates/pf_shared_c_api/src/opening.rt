ghost use Rattle.std.specs.Prelude.{◌≡◌, None, Some, IfOk, IfErr};
ghost use Rattle.pf_c_forms.specs.declared.status.TheConstants.{NO_MEMORY};
ghost use Rattle.pf_shared_c_api.specs.Opening.{IsOpened, LacksCaller, LacksReader, NextCaller, NextReader, Opens, OpensCaller, OpensNone, OpensReader};

use crate::content::Content;
use crate::handle::{CallerHandle, ReaderHandle, SharedHandle};
use pf_c_forms::status::{ALREADY_OPEN, BAD_SETTINGS, NO_MEMORY, NO_PLACE, NOT_OPEN, OK};
use pf_desk::fault::OpenFault;
use pf_scenario::settings::Settings;
use pf_shared_desk::opened::Opened;
use std::alloc::Global;

/// Opens a shared desk at a closed handle: m processors (1 to 64), the base h (1 to 2^30), a cap in 1/h (1 to 2^44), a
/// checkpoint each `every` slots (1 to 4,096), and 2^22 slots; with 1 to 128 callers and at most 64 readers. The handle is
/// as before at every status but `OK`.
///
/// # Errors
///
/// `ALREADY_OPEN` where the handle has something, `BAD_SETTINGS` where a number is out of its limits, `NO_MEMORY`.
#[unsafe(no_mangle)]
pub extern "C" fn pfair_shared_open(
    alloc: Global,
    desk: &mut SharedHandle,
    m: u64,
    h: u64,
    cap: u64,
    every: u64,
    callers: u64,
    readers: u64,
) -> u32
    ensures { Opens m h cap every callers readers desk.old.value result desk.new.value }
{
    match desk.take(alloc) {
        Some(content) => {
            desk.put(alloc, content);
            ALREADY_OPEN
        }
        None => match shared_desk(alloc, m, h, cap, every, callers, readers) {
            Ok(content) => {
                desk.put(alloc, content);
                OK
            }
            Err(status) => status,
        },
    }
}

/// Closes the handle of a shared desk. The desk goes on as long as a caller or a reader of it is open.
#[unsafe(no_mangle)]
pub extern "C" fn pfair_shared_close(alloc: Global, desk: &mut SharedHandle)
    ensures { desk.new.value ≡ None }
{
    drop(desk.take(alloc));
}

/// Opens the next caller of a shared desk, from number 0 on, at a closed handle.
///
/// # Errors
///
/// `NOT_OPEN` where there is no shared desk, `ALREADY_OPEN` where the caller's handle has something, `NO_PLACE` where each
/// caller was opened, `NO_MEMORY`: both are as before.
#[unsafe(no_mangle)]
pub extern "C" fn pfair_caller_open(
    alloc: Global,
    desk: &mut SharedHandle,
    caller: &mut CallerHandle,
) -> u32
    ensures { OpensCaller desk.old.value desk.new.value caller.old.value caller.new.value result }
{
    match desk.take(alloc) {
        None => NOT_OPEN,
        Some(mut content) => {
            let status = open_caller(alloc, &mut content, caller);
            desk.put(alloc, content);
            status
        }
    }
}

/// Closes the handle of a caller. Its number is not given again.
#[unsafe(no_mangle)]
pub extern "C" fn pfair_caller_close(alloc: Global, caller: &mut CallerHandle)
    ensures { caller.new.value ≡ None }
{
    drop(caller.take(alloc));
}

/// Opens the next reader of a shared desk, at a closed handle.
///
/// # Errors
///
/// `NOT_OPEN` where there is no shared desk, `ALREADY_OPEN` where the reader's handle has something, `NO_PLACE` where each
/// reader was opened, `NO_MEMORY`: both are as before.
#[unsafe(no_mangle)]
pub extern "C" fn pfair_reader_open(
    alloc: Global,
    desk: &mut SharedHandle,
    reader: &mut ReaderHandle,
) -> u32
    ensures { OpensReader desk.old.value desk.new.value reader.old.value reader.new.value result }
{
    match desk.take(alloc) {
        None => NOT_OPEN,
        Some(mut content) => {
            let status = open_reader(alloc, &mut content, reader);
            desk.put(alloc, content);
            status
        }
    }
}

/// Closes the handle of a reader.
#[unsafe(no_mangle)]
pub extern "C" fn pfair_reader_close(alloc: Global, reader: &mut ReaderHandle)
    ensures { reader.new.value ≡ None }
{
    drop(reader.take(alloc));
}

/// A shared desk of these numbers.
fn shared_desk(
    alloc: Global,
    m: u64,
    h: u64,
    cap: u64,
    every: u64,
    callers: u64,
    readers: u64,
) -> Result<Box<Content>, u32>
    ensures ok { IfOk result (λ content. IsOpened m h cap every callers readers content.value) }
    ensures err { IfErr result (OpensNone m h cap every callers readers) }
{
    let Ok(settings) = Settings::wide(m, h, cap) else {
        return Err(BAD_SETTINGS);
    };
    match Opened::open(alloc, settings, every, callers, readers) {
        Ok(opened) => match Box::new(alloc, Content::Desk(opened)) {
            Ok(content) => Ok(content),
            Err(_) => Err(NO_MEMORY),
        },
        Err(OpenFault::BadSettings) => Err(BAD_SETTINGS),
        Err(OpenFault::NoMemory) => Err(NO_MEMORY),
    }
}

/// Opens the next caller, where a shared desk is there.
fn open_caller(alloc: Global, content: &mut Content, caller: &mut CallerHandle) -> u32
    ensures { OpensCaller (Some content.old) (Some content.new) caller.old.value caller.new.value result }
{
    let Content::Desk(opened) = content else {
        return NOT_OPEN;
    };
    match caller.take(alloc) {
        Some(there) => {
            caller.put(alloc, there);
            ALREADY_OPEN
        }
        None => match next_caller(alloc, opened) {
            Ok(next) => {
                caller.put(alloc, next);
                OK
            }
            Err(status) => status,
        },
    }
}

/// Opens the next reader, where a shared desk is there.
fn open_reader(alloc: Global, content: &mut Content, reader: &mut ReaderHandle) -> u32
    ensures { OpensReader (Some content.old) (Some content.new) reader.old.value reader.new.value result }
{
    let Content::Desk(opened) = content else {
        return NOT_OPEN;
    };
    match reader.take(alloc) {
        Some(there) => {
            reader.put(alloc, there);
            ALREADY_OPEN
        }
        None => match next_reader(alloc, opened) {
            Ok(next) => {
                reader.put(alloc, next);
                OK
            }
            Err(status) => status,
        },
    }
}

/// A box for what will be put there: so that nothing is lost where memory is refused.
fn empty_box(alloc: Global) -> Result<Box<Content>, u32>
    ensures { IfErr result (λ status. status ≡ NO_MEMORY) }
{
    let none = Opened {
        callers: Vec::new(alloc),
        readers: Vec::new(alloc),
    };
    match Box::new(alloc, Content::Desk(none)) {
        Ok(content) => Ok(content),
        Err(_) => Err(NO_MEMORY),
    }
}

/// Takes the first caller that nobody has.
fn next_caller(alloc: Global, opened: &mut Opened) -> Result<Box<Content>, u32>
    ensures ok { IfOk result (λ content. NextCaller opened.old opened.new content.value) }
    ensures err { IfErr result (LacksCaller opened.old opened.new) }
{
    if opened.callers.is_empty() {
        return Err(NO_PLACE);
    }
    match empty_box(alloc) {
        Ok(mut content) => {
            *content = Content::Caller(opened.callers.remove(0));
            Ok(content)
        }
        Err(status) => Err(status),
    }
}

/// Takes the first reader that nobody has.
fn next_reader(alloc: Global, opened: &mut Opened) -> Result<Box<Content>, u32>
    ensures ok { IfOk result (λ content. NextReader opened.old opened.new content.value) }
    ensures err { IfErr result (LacksReader opened.old opened.new) }
{
    if opened.readers.is_empty() {
        return Err(NO_PLACE);
    }
    match empty_box(alloc) {
        Ok(mut content) => {
            *content = Content::Reader(opened.readers.remove(0));
            Ok(content)
        }
        Err(status) => Err(status),
    }
}
