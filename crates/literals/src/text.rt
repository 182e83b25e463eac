//! Texts in quotes.

ghost use Rattle.std.specs.Prelude.{◌≡◌, ◌∷◌, ◌++◌, ◌<◌, ◌≤◌, [], length, take, Some, IfSome, OnOk, OnErr};
ghost use Rattle.std.specs.List.{flat_map, position_or_len};
ghost use Rattle.std.specs.Option.{option_and_then};
ghost use Rattle.literals.specs.Reads.{Reads, items_of};
ghost use Rattle.literals.specs.Text.{quoted, is_escaped, where_text, text_at, text_literal, quoted_byte};
ghost use Rattle.literals.specs.Part.{read_on, IsShorter};

use crate::LiteralFault;
use crate::part::Part;
use rel_base::{NoMemory, Str, text_of};
use std::alloc::Global;

fn next_part(bytes: &[u8]) -> Part<'_>
    ensures found { read_on result ≡ quoted bytes.now }
    ensures shorter { IsShorter result (length bytes.now) }
{
    match bytes {
        [b'"', rest @ ..] => Part::Close(rest),
        [b'\\', byte, rest @ ..] if is_escaped(*byte) => Part::Byte(*byte, rest),
        [] | [b'\\', ..] => Part::Bad,
        [byte, rest @ ..] => Part::Byte(*byte, rest),
    }
}

/// Whether a backslash stands before this byte.
fn is_escaped(byte: u8) -> bool
    ensures { result ≡ is_escaped byte }
{
    byte == b'"' || byte == b'\\'
}

/// Reads up to the closing quote.
#[tactic(auto, using(crate::proofs::Parts::with_front_more))]
fn unquote(alloc: Global, bytes: &[u8]) -> Result<(Vec<u8>, &[u8]), LiteralFault>
    ensures { Reads (items_of result) (quoted bytes.now) }
{
    let mut rest = bytes;
    let mut value = Vec::new(alloc);
    loop {
        match next_part(rest) {
            Part::Close(after) => return Ok((value, after)),
            Part::Byte(byte, after) => {
                value.push(byte)?;
                rest = after;
            }
            Part::Bad => return Err(LiteralFault::Bad),
        }
    }
}

/// Reads the text in quotes at the start of the bytes, and answers what follows it too.
pub fn read_text(alloc: Global, bytes: &[u8]) -> Result<(Str, &[u8]), LiteralFault>
    ensures { Reads result (text_at bytes.now) }
{
    match bytes {
        [b'"', inside @ ..] => read_quoted(alloc, inside),
        _ => Err(LiteralFault::Bad),
    }
}

/// Where the first quote or backslash stands, or the length where there is none.
fn escaped_at(bytes: &[u8]) -> usize
    ensures value { result ≡ position_or_len is_escaped bytes.now }
    ensures bound { result ≤ length bytes.now }
{
    for (at, byte) in bytes.iter().enumerate() {
        if is_escaped(*byte) {
            return at;
        }
    }
    bytes.len()
}

/// The bytes before the closing quote and those after it, where no backslash stands before it.
#[tactic(auto, using(crate::proofs::Plain::plain_found))]
fn plain_front(bytes: &[u8]) -> Option<(&[u8], &[u8])>
    ensures { IfSome result (λ found. quoted bytes.now ≡ Some (found.0.now, found.1.now)) }
{
    let at = escaped_at(bytes);
    if at == bytes.len() || bytes[at] != b'"' {
        return None;
    }
    Some((&bytes[..at], &bytes[at + 1..]))
}

/// The same after the opening quote. Where no byte is escaped, the text is made of the bytes as they stand.
fn read_quoted(alloc: Global, bytes: &[u8]) -> Result<(Str, &[u8]), LiteralFault>
    ensures { Reads result (option_and_then where_text (quoted bytes.now)) }
{
    match plain_front(bytes) {
        Some((value, rest)) => {
            let text = text_of(alloc, value)?;
            Ok((text, rest))
        }
        None => read_escaped(alloc, bytes),
    }
}

/// The same where bytes are escaped.
fn read_escaped(alloc: Global, bytes: &[u8]) -> Result<(Str, &[u8]), LiteralFault>
    ensures { Reads result (option_and_then where_text (quoted bytes.now)) }
{
    let (value, rest) = unquote(alloc, bytes)?;
    let text = text_of(alloc, value.as_slice())?;
    Ok((text, rest))
}

/// Writes a text in quotes at the end, or nothing where memory runs out.
pub fn push_text(out: &mut Vec<u8>, text: &str) -> Result<(), NoMemory>
    ensures ok { OnOk result (out.new.items ≡ out.old.items ++ text_literal text.now) }
    ensures err { OnErr result (out.new.items ≡ out.old.items) }
{
    let start = out.len();
    let pushed = push_quoted(out, text.as_bytes());
    if pushed.is_err() {
        out.truncate(start);
    }
    pushed
}

/// Writes a text in quotes at the end, or a part of it.
fn push_quoted(out: &mut Vec<u8>, bytes: &[u8]) -> Result<(), NoMemory>
    ensures ok { OnOk result (out.new.items ≡ out.old.items ++ text_literal bytes.now) }
    ensures front { take (length out.old.items) out.new.items ≡ out.old.items }
{
    out.push(b'"')?;
    push_inside(out, bytes)?;
    out.push(b'"')?;
    Ok(())
}

/// Writes bytes of a text at the end, as they stand between quotes.
fn push_inside(out: &mut Vec<u8>, bytes: &[u8]) -> Result<(), NoMemory>
    ensures ok { OnOk result (out.new.items ≡ out.old.items ++ flat_map quoted_byte bytes.now) }
    ensures front { take (length out.old.items) out.new.items ≡ out.old.items }
{
    for byte in bytes {
        push_byte(out, *byte)?;
    }
    Ok(())
}

/// Writes a byte of a text at the end, as it stands between quotes.
fn push_byte(out: &mut Vec<u8>, byte: u8) -> Result<(), NoMemory>
    ensures ok { OnOk result (out.new.items ≡ out.old.items ++ quoted_byte byte) }
    ensures err { OnErr result (out.new.items ≡ out.old.items) }
{
    if is_escaped(byte) {
        out.extend_from_slice(&[b'\\', byte])?;
    } else {
        out.push(byte)?;
    }
    Ok(())
}
