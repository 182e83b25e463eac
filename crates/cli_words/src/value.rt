//! The values of options.

ghost use Rattle.std.specs.Prelude.{◌≡◌, Option};
ghost use Rattle.cli_words.specs.Language.{fits, is_value, is_within, whole_number};

use crate::options::Takes;
use hex_digits::read_hash;
use literals::read_number;

/// Whether a word may be a value: it is not empty and does not begin with `-`.
pub fn is_value(word: &str) -> bool
    ensures { result ≡ is_value word.now }
{
    match word.as_bytes() {
        [first, ..] => *first != b'-',
        [] => false,
    }
}

/// The number that a word is in canonical decimal, if it is below 2^64.
pub fn whole_number(word: &str) -> Option<u64>
    ensures { result ≡ whole_number word.now }
{
    match read_number(word.as_bytes()) {
        Some((number, [])) => Some(number),
        _ => None,
    }
}

// Whether a word is a number from least to most.
fn is_within(least: u64, most: u64, word: &str) -> bool
    ensures { result ≡ is_within least most (whole_number word.now) }
{
    match whole_number(word) {
        Some(number) => least <= number && number <= most,
        None => false,
    }
}

/// Whether a word is a value for an option that takes this.
pub fn fits(takes: Takes, word: &str) -> bool
    ensures { result ≡ fits takes word.now }
{
    match takes {
        Takes::Nothing => false,
        Takes::Text => is_value(word),
        Takes::Number { least, most } => is_within(least, most, word),
        Takes::Hash => read_hash(word.as_bytes()).is_some(),
    }
}
