//! Byte strings in hexadecimal.

ghost use Rattle.std.specs.Prelude.{◌≡◌, ◌++◌, ◌<◌, ◌/◌, ◌%◌, length, take, cond, ◌+◌, IfSome, Some, None, OnOk, OnErr, nat_le, ◌&&◌};
ghost use Rattle.std.specs.Char.{digit_char};
ghost use Rattle.std.specs.List.{flat_map};
ghost use Rattle.std.specs.Option.{option_and_then};
ghost use Rattle.literals.specs.Reads.{Reads, Gives, items_of};
ghost use Rattle.literals.specs.Bytes.{hex_value, pairs, with_pair, where_short, bytes_at, bytes_literal, hex_pair};
ghost use Rattle.literals.specs.Part.{read_pairs_on, IsShorter};

use crate::LiteralFault;
use crate::part::Part;
use rel_base::{Blob, BlobFault, NoMemory};
use std::alloc::Global;

/// What a digit `0` to `9` or `a` to `f` stands for.
fn hex_value(digit: u8) -> Option<u8>
    ensures value { result ≡ hex_value digit }
    ensures small { IfSome result (λ d. d < 16) }
{
    match digit {
        b'0'..=b'9' => Some(digit - b'0'),
        b'a'..=b'f' => Some(digit - 87),
        _ => None,
    }
}

/// The first two digits as a byte, or the closing quote, and what follows.
fn next_pair(bytes: &[u8]) -> Part<'_>
    ensures found { read_pairs_on result ≡ pairs bytes.now }
    ensures shorter { IsShorter result (length bytes.now) }
{
    match bytes {
        [b'"', rest @ ..] => Part::Close(rest),
        [high, low, rest @ ..] => byte_of(hex_value(*high), hex_value(*low), rest),
        _ => Part::Bad,
    }
}

/// The byte of two digits, if they are digits.
fn byte_of(high: Option<u8>, low: Option<u8>, rest: &[u8]) -> Part<'_>
    requires high { IfSome high (λ d. d < 16) }
    requires low { IfSome low (λ d. d < 16) }
    ensures found { read_pairs_on result ≡ with_pair high low (pairs rest.now) }
    ensures shorter { IsShorter result (length rest.now + 1) }
{
    match (high, low) {
        (Some(high), Some(low)) => Part::Byte(16 * high + low, rest),
        _ => Part::Bad,
    }
}

/// Reads pairs of digits up to the closing quote.
#[tactic(auto, using(crate::proofs::Parts::with_front_more))]
fn unhex(alloc: Global, bytes: &[u8]) -> Result<(Vec<u8>, &[u8]), LiteralFault>
    ensures { Reads (items_of result) (pairs bytes.now) }
{
    let mut value = Vec::new(alloc);
    let mut rest = bytes;
    loop {
        match next_pair(rest) {
            Part::Close(after) => return Ok((value, after)),
            Part::Byte(byte, after) => {
                value.push(byte)?;
                rest = after;
            }
            Part::Bad => return Err(LiteralFault::Bad),
        }
    }
}

/// The byte string of some bytes, if they are few enough.
fn blob_of(alloc: Global, bytes: &[u8]) -> Result<Blob, LiteralFault>
    ensures { Gives result (cond (nat_le (length bytes.now) 255) (Some bytes.now) None) }
{
    match Blob::new(alloc, bytes) {
        Ok(blob) => Ok(blob),
        Err(BlobFault::NoMemory) => Err(LiteralFault::NoMemory),
        Err(BlobFault::TooLong) => Err(LiteralFault::Bad),
    }
}

/// Reads the byte string at the start of the bytes, as `x"00ff"`, and answers what follows it too.
pub fn read_bytes(alloc: Global, bytes: &[u8]) -> Result<(Blob, &[u8]), LiteralFault>
    ensures { Reads result (bytes_at bytes.now) }
{
    match bytes {
        [b'x', b'"', inside @ ..] => read_pairs(alloc, inside),
        _ => Err(LiteralFault::Bad),
    }
}

/// The same after the opening quote.
fn read_pairs(alloc: Global, bytes: &[u8]) -> Result<(Blob, &[u8]), LiteralFault>
    ensures { Reads result (option_and_then where_short (pairs bytes.now)) }
{
    let (value, rest) = unhex(alloc, bytes)?;
    let blob = blob_of(alloc, value.as_slice())?;
    Ok((blob, rest))
}

/// The digit `0` to `9` or `a` to `f` of a number below 16.
fn hex_digit(number: u8) -> u8
    requires { number < 16 }
    ensures { result ≡ digit_char number }
{
    if number < 10 {
        b'0' + number
    } else {
        87 + number
    }
}

/// Writes the two digits of a byte at the end.
fn push_pair(out: &mut Vec<u8>, byte: u8) -> Result<(), NoMemory>
    ensures ok { OnOk result (out.new.items ≡ out.old.items ++ hex_pair byte) }
    ensures err { OnErr result (out.new.items ≡ out.old.items) }
{
    out.extend_from_slice(&[hex_digit(byte / 16), hex_digit(byte % 16)])?;
    Ok(())
}

/// Writes pairs of digits at the end.
fn push_pairs(out: &mut Vec<u8>, bytes: &[u8]) -> Result<(), NoMemory>
    ensures ok { OnOk result (out.new.items ≡ out.old.items ++ flat_map hex_pair bytes.now) }
    ensures front { take (length out.old.items) out.new.items ≡ out.old.items }
{
    for byte in bytes {
        push_pair(out, *byte)?;
    }
    Ok(())
}

/// Writes a byte string at the end, or a part of it.
fn push_hex(out: &mut Vec<u8>, bytes: &[u8]) -> Result<(), NoMemory>
    ensures ok { OnOk result (out.new.items ≡ out.old.items ++ bytes_literal bytes.now) }
    ensures front { take (length out.old.items) out.new.items ≡ out.old.items }
{
    out.extend_from_slice(b"x\"")?;
    push_pairs(out, bytes)?;
    out.push(b'"')?;
    Ok(())
}

/// Writes a byte string at the end, as `x"00ff"`, or nothing where memory runs out.
pub fn push_bytes(out: &mut Vec<u8>, bytes: &[u8]) -> Result<(), NoMemory>
    ensures ok { OnOk result (out.new.items ≡ out.old.items ++ bytes_literal bytes.now) }
    ensures err { OnErr result (out.new.items ≡ out.old.items) }
{
    let start = out.len();
    let pushed = push_hex(out, bytes);
    if pushed.is_err() {
        out.truncate(start);
    }
    pushed
}
