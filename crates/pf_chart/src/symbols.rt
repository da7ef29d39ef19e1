ghost use Rattle.std.specs.Prelude.{◌≡◌, ◌≤◌};
ghost use Rattle.std.specs.List.{slice_get};
ghost use Rattle.std.specs.Option.{unwrap_or};
ghost use Rattle.pf_chart.specs.Symbols.{ahead_symbol, lag_symbol, owed_symbol, processor_symbol, rank_symbol};

/// What stands where nothing is told.
pub const BLANK: u8 = b' ';

/// A task that is not shown.
pub const LEFT_OUT: u8 = b'.';

/// The symbol at this place, or another one where there are no more.
fn symbol_at(symbols: &[u8], place: usize, other: u8) -> u8
    ensures { result ≡ unwrap_or (slice_get symbols.now place) other }
{
    symbols.get(place).copied().unwrap_or(other)
}

/// The symbol of the task of this rank, from 1.
pub fn rank_symbol(rank: usize) -> u8
    ensures { result ≡ rank_symbol rank }
{
    symbol_at(
        b"0123456789abcdefghijklmnopqrstuvwxyzABCDEFGHIJKLMNOPQRSTUVWXYZ",
        rank,
        b'*',
    )
}

/// The symbol of a processor, 0 to 63.
pub fn processor_symbol(processor: u32) -> u8
    ensures { result ≡ processor_symbol processor }
{
    symbol_at(
        b"0123456789abcdefghijklmnopqrstuvwxyzABCDEFGHIJKLMNOPQRSTUVWXYZ+/",
        processor as usize,
        b'*',
    )
}

/// The symbol of a lag of so many whole quanta, and something.
fn owed_symbol(quanta: u64) -> u8
    ensures { result ≡ owed_symbol quanta }
{
    symbol_at(b"+123456789", quanta as usize, b'*')
}

/// The symbol of a task that is ahead by so many whole quanta, and something.
fn ahead_symbol(quanta: u64) -> u8
    ensures { result ≡ ahead_symbol quanta }
{
    symbol_at(b"-abcdefghijklmnopqrstuvwxyz", quanta as usize, b'~')
}

/// The symbol of a lag, times the period, of a task of this period.
pub fn lag_symbol(period: u64, lag: i64) -> u8
    requires { 1 ≤ period }
    ensures { result ≡ lag_symbol period lag }
{
    let quanta = lag.unsigned_abs() / period;
    if lag == 0 {
        b'='
    } else if lag > 0 {
        owed_symbol(quanta)
    } else {
        ahead_symbol(quanta)
    }
}
