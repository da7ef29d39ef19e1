ghost use Rattle.std.specs.Prelude.{◌≡◌, ◌≤◌, ◌<◌, ◌^◌, All, IfOk, IfSome, length, option_map, None};
ghost use Rattle.pf_convert.specs.declared.quantum.TheConstants.{LONGEST_QUANTUM};
ghost use Rattle.pf_convert.specs.declared.timed.TheConstants.{TIME_LIMIT};
ghost use Rattle.pf_convert.specs.declared.words.conversion.ConvertFormat.TheVariants.{Script};
ghost use Rattle.pf_convert.specs.Words.Reading.{IsConversion, arrivals_given, conversion_of, first_not_above, format_for, format_given, processors_given, quanta_from, quanta_given, quantum_added, quantum_given, switch_given, texts_of, unit_given, words_from};

use crate::list::time::{parse_digits, parse_time};
use crate::quantum::LONGEST_QUANTUM;
use crate::words::arrivals::Arrivals;
use crate::words::conversion::{Conversion, ConvertFormat};
use crate::words::mistake::ConvertMistake;
use crate::words::quanta::{MOST_QUANTA, Quanta};
use pf_scenario::settings::MOST_PROCESSORS;
use pf_vocabulary::names::unit::Unit;

/// The texts of a conversion's words.
#[derive(Clone, Copy)]
pub struct ConvertWords<'a> {
    pub format: Option<&'a [u8]>,
    pub unit: Option<&'a [u8]>,
    pub quantum: Option<&'a [u8]>,
    pub switch: Option<&'a [u8]>,
    pub processors: Option<&'a [u8]>,
    pub arrivals: Option<&'a [u8]>,
}

/// The format of this name, where there is one.
#[tactic(auto, unfolding(crate::specs::Words::Reading::format_named))]
fn read_format(name: Option<&[u8]>) -> Result<Option<ConvertFormat>, ConvertMistake>
    ensures { result ≡ format_given (option_map (λ n. n.now) name.entry) }
{
    let Some(name) = name else {
        return Ok(None);
    };
    if name == b"script".as_slice() {
        Ok(Some(ConvertFormat::Script))
    } else if name == b"table".as_slice() {
        Ok(Some(ConvertFormat::Table))
    } else if name == b"json".as_slice() {
        Ok(Some(ConvertFormat::Json))
    } else {
        Err(ConvertMistake::Format)
    }
}

/// The unit of this name, where there is one.
fn read_unit(name: Option<&[u8]>) -> Result<Option<Unit>, ConvertMistake>
    ensures { result ≡ unit_given (option_map (λ n. n.now) name.entry) }
{
    let Some(name) = name else {
        return Ok(None);
    };
    match Unit::named(name) {
        Some(unit) => Ok(Some(unit)),
        None => Err(ConvertMistake::Unit),
    }
}

/// When jobs arrive; as slots begin where it is left out.
#[tactic(auto, unfolding(crate::specs::Words::Reading::arrivals_named))]
fn read_arrivals(name: Option<&[u8]>) -> Result<Arrivals, ConvertMistake>
    ensures { result ≡ arrivals_given (option_map (λ n. n.now) name.entry) }
{
    let Some(name) = name else {
        return Ok(Arrivals::Aligned);
    };
    if name == b"aligned".as_slice() {
        Ok(Arrivals::Aligned)
    } else if name == b"any".as_slice() {
        Ok(Arrivals::Any)
    } else {
        Err(ConvertMistake::Arrivals)
    }
}

/// How long a switch takes; nothing where it is left out.
fn read_switch(unit: Unit, text: Option<&[u8]>) -> Result<u64, ConvertMistake>
    ensures { result ≡ switch_given unit (option_map (λ n. n.now) text.entry) }
{
    let Some(text) = text else {
        return Ok(0);
    };
    match parse_time(unit, text) {
        Ok(time) => Ok(time),
        Err(_) => Err(ConvertMistake::Switch),
    }
}

/// The processors, where they are given.
fn read_processors(text: Option<&[u8]>) -> Result<Option<u64>, ConvertMistake>
    ensures value { result ≡ processors_given (option_map (λ n. n.now) text.entry) }
    ensures few { IfOk result (λ processors. IfSome processors (λ m. m ≤ 64)) }
{
    let Some(text) = text else {
        return Ok(None);
    };
    match parse_digits(text) {
        Some(number) if number >= 1 && number <= MOST_PROCESSORS => Ok(Some(number)),
        _ => Err(ConvertMistake::Processors),
    }
}

/// The quanta of this text; none where it is left out.
fn read_quantum(unit: Unit, text: Option<&[u8]>) -> Result<Quanta, ConvertMistake>
    ensures value { result ≡ quantum_given unit (option_map (λ t. t.now) text.entry) }
    ensures short { IfOk result (λ quanta. All (λ q. q ≤ LONGEST_QUANTUM) quanta) }
{
    match text {
        Some(text) => read_quanta(unit, text),
        None => Ok(Quanta::new()),
    }
}

/// The quanta that a text has, joined by commas: 1 to 64 times above 0 and up to a second, no two of them equal.
fn read_quanta(unit: Unit, text: &[u8]) -> Result<Quanta, ConvertMistake>
    ensures value { result ≡ quanta_given unit text.now }
    ensures short { IfOk result (λ quanta. All (λ q. q ≤ LONGEST_QUANTUM) quanta) }
{
    let mut quanta = Quanta::new();
    let mut start = 0;
    for end in 0..text.len() {
        if text[end] == b',' {
            quanta = with_quantum(unit, quanta, &text[start..end])?;
            start = end + 1;
        }
    }
    with_quantum(unit, quanta, &text[start..])
}

/// The quanta with one more, of this text.
fn with_quantum(unit: Unit, quanta: Quanta, text: &[u8]) -> Result<Quanta, ConvertMistake>
    requires { All (λ q. q ≤ LONGEST_QUANTUM) quanta }
    ensures value { result ≡ quantum_added unit quanta text.now }
    ensures short { IfOk result (λ more. All (λ q. q ≤ LONGEST_QUANTUM) more) }
{
    let Ok(quantum) = parse_time(unit, text) else {
        return Err(ConvertMistake::Quantum);
    };
    if quantum == 0 || quantum > LONGEST_QUANTUM {
        return Err(ConvertMistake::Quantum);
    }
    if quanta.has(quantum) || quanta.all().len() >= MOST_QUANTA {
        return Err(ConvertMistake::Quantum);
    }
    let mut more = quanta;
    more.push(quantum);
    Ok(more)
}

/// The first quantum that the switch is not below.
fn first_not_above(switch: u64, quanta: &[u64]) -> Option<u64>
    ensures value { result ≡ first_not_above switch quanta.now }
    ensures above { result ≡ None → All (λ q. switch < q) quanta.now }
{
    for quantum in quanta {
        if *quantum <= switch {
            return Some(*quantum);
        }
    }
    None
}

/// The format, a table for several quanta and else a script where none is named.
fn format_for(named: Option<ConvertFormat>, quanta: &[u64]) -> Result<ConvertFormat, ConvertMistake>
    ensures value { result ≡ format_for named (length quanta.now) }
    ensures one { IfOk result (λ format. format ≡ Script → length quanta.now ≤ 1) }
{
    match named {
        Some(ConvertFormat::Script) if quanta.len() > 1 => Err(ConvertMistake::SeveralQuanta),
        Some(format) => Ok(format),
        None if quanta.len() > 1 => Ok(ConvertFormat::Table),
        None => Ok(ConvertFormat::Script),
    }
}

/// What the words of a conversion ask for.
///
/// # Errors
///
/// The first of them that is mistaken.
#[tactic(auto, unfolding(crate::specs::Words::Reading::conversion_of))]
pub fn read_conversion(words: &ConvertWords<'_>) -> Result<Conversion, ConvertMistake>
    ensures value { result ≡ conversion_of (texts_of words.now) }
    ensures sound { IfOk result IsConversion }
{
    let format = read_format(words.format)?;
    let unit = read_unit(words.unit)?;
    let counted = unit.unwrap_or(Unit::Millisecond);
    let quanta = read_quantum(counted, words.quantum)?;
    let switch = read_switch(counted, words.switch)?;
    let processors = read_processors(words.processors)?;
    let arrivals = read_arrivals(words.arrivals)?;
    if let Some(quantum) = first_not_above(switch, quanta.all()) {
        return Err(ConvertMistake::SwitchNotBelow(counted, quantum));
    }
    let format = format_for(format, quanta.all())?;
    Ok(Conversion {
        format,
        unit,
        quanta,
        switch,
        processors,
        arrivals,
    })
}
