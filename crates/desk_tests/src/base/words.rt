//! The words of processors, as numbers that were worked out by hand.
ghost use Rattle.std.specs.Prelude.{◌≡◌};
ghost use Rattle.pf_board.specs.Words.{FitsWord};

use pf_board::quantum::Quantum;
use pf_board::word::Word;
use std::process::Abort;

/// Fails where the quantum has another word, or the word another quantum.
fn is_word(rt: &impl Abort, quantum: Quantum, bits: u64)
    requires { FitsWord quantum }
{
    let word = Word::encode(&quantum);
    assert_eq!(rt; word.bits, bits);
    assert_eq!(rt; word.decode(quantum.processor), Some(quantum));
}

/// A quantum of the first processor.
fn quantum(slot: u64, task: u32, sub: u32) -> Quantum
    ensures { result ≡ record { slot = slot; processor = 0; task = task; sub = sub } }
{
    Quantum {
        slot,
        processor: 0,
        task,
        sub,
    }
}

/// Two words and the greatest one; and the word on which no quantum lies.
#[test]
fn the_three_words_of_processors(rt: HostRuntime) {
    is_word(&rt, quantum(0, 2, 1), 16_777_217);
    is_word(&rt, quantum(1, 3, 1), 34_384_904_193);
    is_word(
        &rt,
        quantum(4_194_303, 4_095, 4_194_304),
        144_115_188_071_661_568,
    );
    assert_eq!(rt; Word { bits: 0 }.decode(0), None);
}
