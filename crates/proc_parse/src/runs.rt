//! Letters, digits and `_` in a row: reserved words and names.

ghost use Rattle.std.specs.Prelude.{◌≡◌, ◌↔◌, ◌≤◌, nat_eq, length, false, IfOk, IsErrOf};
ghost use Rattle.std.specs.Cmp.Lexicographic.{pointwise};
ghost use Rattle.rel_base.specs.Text.{is_name_byte, has_name_form};
ghost use Rattle.proc_parse.specs.Words.{spelling};
ghost use Rattle.proc_parse.specs.Tokens.{word_in, run_len, run_lexeme};

use crate::token::{Lexeme, WORDS, Word};
use rel_base::{Name, NameFault, NoMemory};
use std::alloc::Global;

/// Whether some bytes spell a word.
fn is_spelled(bytes: &[u8], word: Word) -> bool
    ensures { result ≡ pointwise nat_eq (spelling word) bytes.now }
{
    word.spelling().as_bytes() == bytes
}

/// The word of these that some bytes spell.
fn word_in(words: &[Word], bytes: &[u8]) -> Option<Word>
    ensures { result ≡ word_in words.now bytes.now }
{
    for word in words {
        if is_spelled(bytes, *word) {
            return Some(*word);
        }
    }
    None
}

/// The name of some bytes.
#[tactic(auto, using(rel_base::proofs::Utf8::name_is_utf8))]
fn name_of(alloc: Global, bytes: &[u8]) -> Result<Name, NameFault>
    ensures ok { IfOk result (λ made. made ≡ bytes.now) }
    ensures bad { IsErrOf result NameFault.Bad ↔ (has_name_form bytes.now ≡ false) }
{
    match std::str::from_utf8(bytes) {
        Ok(text) => Name::new(alloc, text),
        Err(_) => Err(NameFault::Bad),
    }
}

/// What letters, digits and `_` are as a token.
pub fn run_lexeme(alloc: Global, run: &[u8]) -> Result<Lexeme, NoMemory>
    ensures { IfOk result (λ lexeme. lexeme ≡ run_lexeme run.now) }
{
    if let Some(word) = word_in(&WORDS, run) {
        return Ok(Lexeme::Word(word));
    }
    match name_of(alloc, run) {
        Ok(name) => Ok(Lexeme::Name(name)),
        Err(NameFault::Bad) => Ok(Lexeme::Bad),
        Err(NameFault::NoMemory) => Err(NoMemory),
    }
}

/// Whether it is a letter, a digit or `_`.
fn is_name_byte(byte: u8) -> bool
    ensures { result ≡ is_name_byte byte }
{
    (byte >= b'a' && byte <= b'z') || (byte >= b'0' && byte <= b'9') || byte == b'_'
}

/// How many letters, digits and `_` stand at the start.
pub fn run_len(bytes: &[u8]) -> usize
    ensures value { result ≡ run_len bytes.now }
    ensures bound { result ≤ length bytes.now }
{
    for (at, byte) in bytes.iter().enumerate() {
        if !is_name_byte(*byte) {
            return at;
        }
    }
    bytes.len()
}
