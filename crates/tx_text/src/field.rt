//! The fields of a line.

ghost use Rattle.std.specs.Prelude.{◌≡◌, ◌<◌, ◌≤◌, length, cond, Some, None, IsErrOf};
ghost use Rattle.std.specs.List.{position_or_len};
ghost use Rattle.literals.specs.Reads.{Reads, Gives};
ghost use Rattle.rel_base.specs.Reading.{found_text};
ghost use Rattle.rel_base.specs.Text.{has_id_form, has_name_form};
ghost use Rattle.tx_text.specs.Fields.{is_space, after, word, past_word, id_at, name_at, GivesRest};

use literals::LiteralFault;
use rel_base::{Id, Name, NameFault};
use std::alloc::Global;

/// What follows some bytes, where these stand first.
pub fn strip<'a>(front: &[u8], bytes: &'a [u8]) -> Option<&'a [u8]>
    ensures { found_text result ≡ after front.now bytes.now }
{
    bytes.strip_prefix(front)
}

/// The same, as a part of a line that has to be there.
pub fn skip<'a>(front: &[u8], bytes: &'a [u8]) -> Result<&'a [u8], LiteralFault>
    ensures rest { GivesRest result (after front.now bytes.now) }
    ensures judged { IsErrOf result LiteralFault.NoMemory → ⊥ }
{
    match strip(front, bytes) {
        Some(rest) => Ok(rest),
        None => Err(LiteralFault::Bad),
    }
}

/// Where the first space stands, or the length where there is none.
fn word_len(bytes: &[u8]) -> usize
    ensures value { result ≡ position_or_len is_space bytes.now }
    ensures bound { result ≤ length bytes.now }
{
    for (at, byte) in bytes.iter().enumerate() {
        if *byte == b' ' {
            return at;
        }
    }
    bytes.len()
}

/// The bytes before the first space, and those from it on.
pub fn split_word(bytes: &[u8]) -> (&[u8], &[u8])
    ensures word { result.0.now ≡ word bytes.now }
    ensures rest { result.1.now ≡ past_word bytes.now }
{
    bytes.split_at(word_len(bytes))
}

/// The id of some bytes, if they are one.
#[tactic(auto, using(rel_base::proofs::Utf8::no_id))]
fn id_of(alloc: Global, word: &[u8]) -> Result<Id, LiteralFault>
    ensures { Gives result (cond (has_id_form word.now) (Some word.now) None) }
{
    let Ok(text) = std::str::from_utf8(word) else {
        return Err(LiteralFault::Bad);
    };
    match Id::new(alloc, text) {
        Ok(id) => Ok(id),
        Err(NameFault::NoMemory) => Err(LiteralFault::NoMemory),
        Err(NameFault::Bad) => Err(LiteralFault::Bad),
    }
}

/// The name of some bytes, if they are one.
#[tactic(auto, using(rel_base::proofs::Utf8::no_name))]
fn name_of(alloc: Global, word: &[u8]) -> Result<Name, LiteralFault>
    ensures { Gives result (cond (has_name_form word.now) (Some word.now) None) }
{
    let Ok(text) = std::str::from_utf8(word) else {
        return Err(LiteralFault::Bad);
    };
    match Name::new(alloc, text) {
        Ok(name) => Ok(name),
        Err(NameFault::NoMemory) => Err(LiteralFault::NoMemory),
        Err(NameFault::Bad) => Err(LiteralFault::Bad),
    }
}

/// Reads the id up to the next space.
pub fn read_id(alloc: Global, bytes: &[u8]) -> Result<(Id, &[u8]), LiteralFault>
    ensures { Reads result (id_at bytes.now) }
{
    let (word, rest) = split_word(bytes);
    let id = id_of(alloc, word)?;
    Ok((id, rest))
}

/// Reads the name up to the next space.
pub fn read_name(alloc: Global, bytes: &[u8]) -> Result<(Name, &[u8]), LiteralFault>
    ensures { Reads result (name_at bytes.now) }
{
    let (word, rest) = split_word(bytes);
    let name = name_of(alloc, word)?;
    Ok((name, rest))
}
