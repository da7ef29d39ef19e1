ghost use Rattle.std.specs.List.{position};
ghost use Rattle.std.specs.Prelude.{◌≡◌, ◌==◌, ◌++◌, ◌+◌, ◌<◌, ◌≤◌, ◌^◌, not, length, IfOk, IfSome, OnOk};
ghost use Rattle.pf_convert.specs.declared.timed.TheConstants.{TIME_LIMIT};
ghost use Rattle.pf_convert.specs.List.Times.{blanks_length, carried_unit, carries_unit, few_digits, front_in, is_blank_byte, is_number_byte, number_in, number_length, part_in, places_of, time_in, time_text, unit_after, whole_in};

use pf_text::columns::decimals::push_fewest_places;
use pf_vocabulary::names::unit::Unit;
use std::alloc::AllocError;

/// The most digits before a point, and the most after it.
const MOST_DIGITS: usize = 9;

/// Why a field is no time.
#[derive(Clone, Copy)]
pub enum TimeFault {
    /// It isn't up to 9 digits on each side of a point, and a unit or none.
    NoTime,
    /// It is no whole number of nanoseconds.
    TooFine,
    /// It carries no unit, and other times do.
    NoUnit,
    /// It is 0, where a time above 0 is expected.
    Zero,
}

/// A nanosecond is 10^-places of a unit.
pub fn places_of(unit: Unit) -> u32
    ensures value { result ≡ places_of unit }
    ensures few { result ≤ 9 }
{
    match unit {
        Unit::Nanosecond => 0,
        Unit::Microsecond => 3,
        Unit::Millisecond => 6,
        Unit::Second => 9,
    }
}

/// The number that 1 to 9 ASCII digits are, with nothing else.
#[tactic(auto, unfolding(crate::specs::List::Times::few_digits))]
pub fn parse_digits(field: &[u8]) -> Option<u64>
    ensures value { result ≡ few_digits field.now }
    ensures small { IfSome result (λ number. (number < 10 ^ length field.now) × (length field.now ≤ 9)) }
{
    if field.is_empty() || field.len() > MOST_DIGITS {
        return None;
    }
    let mut value = 0;
    for byte in field {
        if !byte.is_ascii_digit() {
            return None;
        }
        value = value * 10 + u64::from(*byte - b'0');
    }
    Some(value)
}

/// A number of units in nanoseconds.
///
/// # Errors
///
/// `NoTime` where the field isn't 1 to 9 digits.
fn parse_whole(places: u32, field: &[u8]) -> Result<u64, TimeFault>
    requires { places ≤ 9 }
    ensures value { result ≡ whole_in places field.now }
    ensures small { IfOk result (λ t. t + 10 ^ places ≤ TIME_LIMIT) }
{
    match parse_digits(field) {
        Some(number) => Ok(number * 10u64.pow(places)),
        None => Err(TimeFault::NoTime),
    }
}

/// The digits after a point in nanoseconds.
///
/// # Errors
///
/// `NoTime` where the field isn't 1 to 9 digits, and `TooFine` where they make no whole number of nanoseconds.
fn parse_part(places: u32, field: &[u8]) -> Result<u64, TimeFault>
    requires { places ≤ 9 }
    ensures value { result ≡ part_in places field.now }
    ensures small { IfOk result (λ t. t < 10 ^ places) }
{
    let Some(number) = parse_digits(field) else {
        return Err(TimeFault::NoTime);
    };
    let scaled = number * 10u64.pow(places);
    let one = 10u64.pow(field.len() as u32);
    if scaled % one != 0 {
        return Err(TimeFault::TooFine);
    }
    Ok(scaled / one)
}

/// The digits before a point in nanoseconds, of which there may be none.
///
/// # Errors
///
/// `NoTime` where the field isn't up to 9 digits.
fn parse_front(places: u32, field: &[u8]) -> Result<u64, TimeFault>
    requires { places ≤ 9 }
    ensures value { result ≡ front_in places field.now }
    ensures small { IfOk result (λ t. t + 10 ^ places ≤ TIME_LIMIT) }
{
    if field.is_empty() {
        return Ok(0);
    }
    parse_whole(places, field)
}

/// The place of the first point.
fn find_point(field: &[u8]) -> Option<usize>
    ensures value { result ≡ position (λ byte. byte == 46) field.now }
    ensures within { IfSome result (λ place. place < length field.now) }
{
    field.iter().position(|byte| *byte == b'.')
}

/// A number of units in nanoseconds: 1 to 9 digits, and where there is a point 1 to 9 more after it; before the point there may
/// be none.
///
/// # Errors
///
/// `NoTime` where it is none, and else `TooFine` where it is no whole number of nanoseconds.
#[tactic(auto, unfolding(crate::specs::List::Times::number_in))]
fn parse_number(places: u32, field: &[u8]) -> Result<u64, TimeFault>
    requires { places ≤ 9 }
    ensures value { result ≡ number_in places field.now }
    ensures small { IfOk result (λ t. t < TIME_LIMIT) }
{
    match find_point(field) {
        Some(point) => {
            let whole = parse_front(places, &field[..point])?;
            let part = parse_part(places, &field[point + 1..])?;
            Ok(whole + part)
        }
        None => parse_whole(places, field),
    }
}

/// Whether a byte is a digit or a point.
fn is_number_byte(byte: u8) -> bool
    ensures { result ≡ is_number_byte byte }
{
    (byte >= b'0' && byte <= b'9') || byte == b'.'
}

/// Whether a byte is a space or a tab.
fn is_blank_byte(byte: u8) -> bool
    ensures { result ≡ is_blank_byte byte }
{
    byte == b' ' || byte == b'\t'
}

/// The first byte of a field that is no digit and no point.
fn find_number_end(field: &[u8]) -> Option<usize>
    ensures value { result ≡ position (λ byte. not (is_number_byte byte)) field.now }
    ensures within { IfSome result (λ place. place < length field.now) }
{
    field.iter().position(|byte| !is_number_byte(*byte))
}

/// How many digits and points a field begins with.
#[tactic(auto, unfolding(crate::specs::List::Times::number_length))]
fn number_length(field: &[u8]) -> usize
    ensures value { result ≡ number_length field.now }
    ensures within { result ≤ length field.now }
{
    match find_number_end(field) {
        Some(place) => place,
        None => field.len(),
    }
}

/// The first byte of a field that is no blank.
fn find_blanks_end(field: &[u8]) -> Option<usize>
    ensures value { result ≡ position (λ byte. not (is_blank_byte byte)) field.now }
    ensures within { IfSome result (λ place. place < length field.now) }
{
    field.iter().position(|byte| !is_blank_byte(*byte))
}

/// How many blanks it begins with.
#[tactic(auto, unfolding(crate::specs::List::Times::blanks_length))]
fn blanks_length(field: &[u8]) -> usize
    ensures value { result ≡ blanks_length field.now }
    ensures within { result ≤ length field.now }
{
    match find_blanks_end(field) {
        Some(place) => place,
        None => field.len(),
    }
}

/// The unit that stands after a number, after blanks or none; none where nothing does.
///
/// # Errors
///
/// `NoTime` where something else does.
#[tactic(auto, unfolding(crate::specs::List::Times::unit_after))]
fn unit_after(rest: &[u8]) -> Result<Option<Unit>, TimeFault>
    ensures { result ≡ unit_after rest.now }
{
    if rest.is_empty() {
        return Ok(None);
    }
    match Unit::named(&rest[blanks_length(rest)..]) {
        Some(unit) => Ok(Some(unit)),
        None => Err(TimeFault::NoTime),
    }
}

/// The unit that a time carries, if it does.
pub fn carried_unit(field: &[u8]) -> Option<Unit>
    ensures { result ≡ carried_unit field.now }
{
    unit_after(&field[number_length(field)..]).unwrap_or(None)
}

/// Whether a field is a time that carries a unit, though no whole number of nanoseconds.
#[tactic(auto, unfolding(crate::specs::List::Times::carries_unit))]
pub fn carries_unit(field: &[u8]) -> bool
    ensures { result ≡ carries_unit field.now }
{
    let Some(unit) = carried_unit(field) else {
        return false;
    };
    match parse_number(places_of(unit), &field[..number_length(field)]) {
        Err(TimeFault::NoTime) => false,
        _ => true,
    }
}

/// A time in nanoseconds: a number, and its unit, where it carries one, else the one that is assumed.
///
/// # Errors
///
/// `NoTime` where it is none, and else `TooFine` where it is no whole number of nanoseconds.
#[tactic(auto, unfolding(crate::specs::List::Times::time_in))]
pub fn parse_time(assumed: Unit, field: &[u8]) -> Result<u64, TimeFault>
    ensures value { result ≡ time_in assumed field.now }
    ensures small { IfOk result (λ t. t < TIME_LIMIT) }
{
    let number = number_length(field);
    let unit = unit_after(&field[number..])?;
    parse_number(places_of(unit.unwrap_or(assumed)), &field[..number])
}

/// Adds a time in nanoseconds, as a decimal in a unit with the unit after it.
///
/// # Errors
///
/// Where memory is refused: a front of it was added.
pub fn push_time(text: &mut Vec<u8>, unit: Unit, time: u128) -> Result<(), AllocError>
    ensures { OnOk result (text.new.items ≡ text.old.items ++ time_text unit time) }
{
    push_fewest_places(text, places_of(unit), time)?;
    text.extend_from_slice(unit.word().as_bytes())
}
