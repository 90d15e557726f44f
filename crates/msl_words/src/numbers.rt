ghost use Rattle.std.specs.Prelude.{◌≡◌};
ghost use Rattle.std.specs.Str.{all_ascii_digits};
ghost use Rattle.msl_words.specs.Words.{is_numeral, is_operand, number_of, process_count, record_count};

use crate::limits::{MOST_DEMO_DIGITS, MOST_DEMO_RECORDS, MOST_PROCESS_DIGITS, MOST_PROCESSES};

/// Whether a word may stand for a script: it isn't empty and doesn't begin with `-`.
pub(crate) fn is_operand(word: &str) -> bool
    ensures { result ≡ is_operand word.now }
{
    match word.as_bytes() {
        [] => false,
        [first, ..] => *first != b'-',
    }
}

/// How many processes a value asks for.
pub(crate) fn process_count(word: &str) -> Option<u32>
    ensures { result ≡ process_count word.now }
{
    number_of(word, MOST_PROCESS_DIGITS, 1, MOST_PROCESSES)
}

/// How many records an operand asks for.
pub(crate) fn record_count(word: &str) -> Option<u32>
    ensures { result ≡ record_count word.now }
{
    number_of(word, MOST_DEMO_DIGITS, 0, MOST_DEMO_RECORDS)
}

// The number that 1 to `digits` decimal digits write, from `least` to `most`.
fn number_of(word: &str, digits: usize, least: u32, most: u32) -> Option<u32>
    ensures { result ≡ number_of digits least most word.now }
{
    if !is_numeral(word.as_bytes(), digits) {
        return None;
    }
    let Ok(number) = word.parse::<u32>() else {
        return None;
    };
    if least <= number && number <= most {
        Some(number)
    } else {
        None
    }
}

fn is_numeral(word: &[u8], digits: usize) -> bool
    ensures { result ≡ is_numeral digits word.now }
{
    !word.is_empty() && word.len() <= digits && are_digits(word)
}

fn are_digits(word: &[u8]) -> bool
    ensures { result ≡ all_ascii_digits word.now }
{
    word.iter().all(|c| c.is_ascii_digit())
}
