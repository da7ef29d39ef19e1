ghost use Rattle.std.specs.Prelude.{◌≡◌, ◌++◌, ◌≤◌, IfOk, OnOk};
ghost use Rattle.pf_trace.specs.Trace.{head_text, processor_name, processor_names};

use crate::form::push_filled;
use crate::title::Title;
use std::alloc::{AllocError, Global};

/// Adds the name of a processor's track, and its place.
fn push_processor(text: &mut Vec<u8>, title: &Title, processor: u32) -> Result<(), AllocError>
    ensures { OnOk result (text.new.items ≡ text.old.items ++ processor_name title.now processor) }
{
    let processor = u64::from(processor);
    let track = processor + 1;
    push_filled(
        text,
        title,
        b",\n{\"args\":{\"name\":\"p#\"},\"name\":\"thread_name\",\"ph\":\"M\",\"pid\":1,\"tid\":#},\n{\"args\":{\"sort_index\":#},\"name\":\"thread_sort_index\",\"ph\":\"M\",\"pid\":1,\"tid\":#}",
        &[processor, track, track, track],
    )
}

/// Adds the names of so many processors.
fn push_processors(text: &mut Vec<u8>, title: &Title, processors: u32) -> Result<(), AllocError>
    ensures { OnOk result (text.new.items ≡ text.old.items ++ processor_names title.now processors) }
{
    for processor in 0..processors {
        push_processor(text, title, processor)?;
    }
    Ok(())
}

/// What stands before the tasks: the names of the two processes and of the processors.
pub(crate) fn head(alloc: Global, title: &Title, processors: u32) -> Result<Vec<u8>, AllocError>
    ensures { IfOk result (λ text. text.items ≡ head_text title.now processors) }
{
    let mut text = Vec::from_slice(
        alloc,
        b"{\"displayTimeUnit\":\"ms\",\"traceEvents\":[\n{\"args\":{\"name\":\"processors\"},\"name\":\"process_name\",\"ph\":\"M\",\"pid\":1},\n{\"args\":{\"sort_index\":1},\"name\":\"process_sort_index\",\"ph\":\"M\",\"pid\":1}",
    )?;
    push_processors(&mut text, title, processors)?;
    text.extend_from_slice(
        b",\n{\"args\":{\"name\":\"tasks\"},\"name\":\"process_name\",\"ph\":\"M\",\"pid\":2},\n{\"args\":{\"sort_index\":2},\"name\":\"process_sort_index\",\"ph\":\"M\",\"pid\":2}",
    )?;
    Ok(text)
}
