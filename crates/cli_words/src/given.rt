//! What the words after a command give its options.

ghost use Rattle.std.specs.Prelude.{◌≡◌, length, Option, option_copied};
ghost use Rattle.cli_words.specs.Language.{first, given, is_read, step, texts};

use crate::options::{CommandOption, Takes, option_of};
use crate::value::fits;

/// What one more word is.
#[derive(Clone, Copy, PartialEq, Eq)]
pub enum NextWord {
    /// Neither an option nor the value that is awaited.
    Bad,
    /// An option whose value comes next.
    Awaits(CommandOption),
    /// The value of this option, or an option that takes none.
    Ends(CommandOption),
}

// A word that has to be an option.
fn begin(word: &str) -> NextWord
    ensures { result ≡ step None word.now }
{
    match option_of(word) {
        None => NextWord::Bad,
        Some(option) => match option.takes() {
            Takes::Nothing => NextWord::Ends(option),
            Takes::Text | Takes::Number { .. } | Takes::Hash => NextWord::Awaits(option),
        },
    }
}

// A word that has to be the value of an option.
fn end(option: CommandOption, word: &str) -> NextWord
    ensures { result ≡ step (Some option) word.now }
{
    if fits(option.takes(), word) {
        NextWord::Ends(option)
    } else {
        NextWord::Bad
    }
}

// One more word: the value of the option that awaits one, or else an option.
fn read_word(waiting: Option<CommandOption>, word: &str) -> NextWord
    ensures { result ≡ step waiting word.now }
{
    match waiting {
        None => begin(word),
        Some(option) => end(option, word),
    }
}

/// Whether the words are options, each with the value that it takes.
pub fn is_read(words: &[&str]) -> bool
    ensures { result ≡ is_read None (texts words.now) }
{
    let mut waiting = None;
    for word in words {
        match read_word(waiting, word) {
            NextWord::Bad => return false,
            NextWord::Awaits(option) => waiting = Some(option),
            NextWord::Ends(_) => waiting = None,
        }
    }
    waiting.is_none()
}

/// How often the words give an option.
pub fn count(words: &[&str], option: CommandOption) -> usize
    ensures { result ≡ length (given (texts words.now) option) }
{
    let mut count = 0;
    let mut waiting = None;
    for word in words {
        match read_word(waiting, word) {
            NextWord::Bad => return count,
            NextWord::Awaits(next) => waiting = Some(next),
            NextWord::Ends(ended) => {
                waiting = None;
                if ended.is(option) {
                    count += 1;
                }
            }
        }
    }
    count
}

/// The first value that the words give an option; of one that takes none it is the empty text.
pub fn find<'a>(words: &[&'a str], option: CommandOption) -> Option<&'a str>
    ensures { option_copied result ≡ first (given (texts words.now) option) }
{
    let mut waiting = None;
    for word in words {
        match read_word(waiting, word) {
            NextWord::Bad => return None,
            NextWord::Awaits(next) => waiting = Some(next),
            NextWord::Ends(ended) => {
                if ended.is(option) {
                    return Some(if waiting.is_some() { *word } else { "" });
                }
                waiting = None;
            }
        }
    }
    None
}
