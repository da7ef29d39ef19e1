ghost use Rattle.std.specs.Prelude.{◌≡◌, ◌++◌, true, nat_le, map, count_by, IfOk, OnOk};
ghost use Rattle.std.specs.Str.{bytes_eq};
ghost use Rattle.pf_code.specs.Repetition.{admitted_in};
ghost use Rattle.pf_code.specs.Span.{are_owed_whole};
ghost use Rattle.pf_code.specs.Symbol.{identifier_byte, identifier_of};
ghost use Rattle.pf_code.specs.Tasks.{own_symbol};

use pf_desk::snapshot::Snapshot;
use pf_tally::admitted::{Admitted, admitted_by_number};
use pf_tally::ledger::make_ledger;
use pf_text::numbers::push_number;
use pf_vocabulary::names::names::Names;
use std::alloc::{AllocError, Global};

/// The tasks admitted in the slots that were stepped, by number.
#[tactic(auto, unfolding(crate::specs::Repetition::admitted_in))]
pub(crate) fn admitted_in(alloc: Global, snapshot: &Snapshot) -> Result<Vec<Admitted>, AllocError>
    ensures tasks { IfOk result (λ tasks. tasks.items ≡ admitted_in snapshot.now) }
    ensures whole { IfOk result (λ tasks. are_owed_whole tasks.items snapshot.now.state.plan.settings.base ≡ true) }
{
    // That the rows are those of the scenario's run is known from its calls alone.
    let _ = snapshot.now();
    let ledger = make_ledger(
        alloc,
        snapshot.scenario(),
        snapshot.rows(),
        snapshot.denials(),
    )?;
    admitted_by_number(alloc, ledger.settings, &ledger.events)
}

/// What stands for a byte of a name in a name of C.
fn identifier_byte(byte: u8) -> u8
    ensures { result ≡ identifier_byte byte }
{
    if byte.is_ascii_alphanumeric() {
        byte.to_ascii_uppercase()
    } else {
        b'_'
    }
}

/// A name as a name of C.
fn identifier_of(alloc: Global, name: &[u8]) -> Result<Vec<u8>, AllocError>
    ensures { IfOk result (λ identifier. identifier.items ≡ identifier_of name.now) }
{
    let mut identifier = Vec::with_capacity(alloc, name.len())?;
    for byte in name {
        identifier.push(identifier_byte(*byte))?;
    }
    Ok(identifier)
}

/// The symbol that a task would have alone: its name's, or its number.
fn own_symbol(alloc: Global, names: &Names, task: &Admitted) -> Result<Vec<u8>, AllocError>
    ensures { IfOk result (λ symbol. symbol.items ≡ own_symbol names.now task.now) }
{
    match names.of_task(task.task) {
        Some(name) => identifier_of(alloc, name.as_bytes()),
        None => {
            let mut symbol = Vec::new(alloc);
            push_number(&mut symbol, task.task)?;
            Ok(symbol)
        }
    }
}

/// The symbols that these tasks would have alone.
pub(crate) fn own_symbols(
    alloc: Global,
    names: &Names,
    tasks: &[Admitted],
) -> Result<Vec<Vec<u8>>, AllocError>
    ensures { IfOk result (λ symbols. map (λ symbol. symbol.items) symbols.items ≡ map (own_symbol names.now) tasks.now) }
{
    let mut symbols = Vec::with_capacity(alloc, tasks.len())?;
    for task in tasks {
        symbols.push(own_symbol(alloc, names, task)?)?;
    }
    Ok(symbols)
}

/// How many of these symbols are this one.
pub(crate) fn count_alike(symbols: &[Vec<u8>], own: &[u8]) -> u64
    ensures { result ≡ count_by (bytes_eq own.now) (map (λ symbol. symbol.items) symbols.now) }
{
    let mut count = 0;
    for symbol in symbols {
        if own == symbol.as_slice() {
            count += 1;
        }
    }
    count
}
