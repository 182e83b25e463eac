//! Values as text.

ghost use Rattle.std.specs.Prelude.{◌≡◌, ◌∷◌, ◌++◌, ◌<◌, ◌≤◌, length, cond, Some, None, OnOk, OnErr, IfOk, IsErrOf, codes, true};
ghost use Rattle.std.specs.Fmt.{signed_decimal};
ghost use Rattle.std.specs.List.{AllByRecursion};
ghost use Rattle.std.specs.Option.{option_and_then};
ghost use Rattle.literals.specs.Reads.{Reads, Gives};
ghost use Rattle.literals.specs.Number.{u64_at};
ghost use Rattle.literals.specs.Text.{is_text, text_at, text_literal};
ghost use Rattle.literals.specs.Bytes.{bytes_at, bytes_literal};
ghost use Rattle.rel_base.specs.declared.value.Value.TheVariants as kinds;
ghost use Rattle.rel_base.specs.Reading.{as_kind};
ghost use Rattle.tx_text.specs.Values.{int_at, bool_at, plain_int, minus_int, int_of, value_at, value_of, value_text, IsValue};

use crate::field::strip;
use literals::{LiteralFault, push_bytes, push_int, push_text, read_bytes, read_number, read_text};
use rel_base::{Blob, List, NoMemory, Str, Value};
use std::alloc::Global;

/// Reads the number below 2^64 at the start of the bytes.
pub fn read_u64(bytes: &[u8]) -> Result<(u64, &[u8]), LiteralFault>
    ensures number { Reads result (u64_at bytes.now) }
    ensures judged { IsErrOf result LiteralFault.NoMemory → ⊥ }
{
    match read_number(bytes) {
        Some((number, rest)) => Ok((number, rest)),
        None => Err(LiteralFault::Bad),
    }
}

/// A number as an int.
fn plain_int(number: u64) -> Result<i64, LiteralFault>
    ensures { Gives result (plain_int number) }
{
    match i64::try_from(number) {
        Ok(int) => Ok(int),
        Err(_) => Err(LiteralFault::Bad),
    }
}

/// A number with a minus before it as an int.
fn minus_int(number: u64) -> Result<i64, LiteralFault>
    ensures { Gives result (minus_int number) }
{
    if number == 0 || number > 1 << 63 {
        return Err(LiteralFault::Bad);
    }
    Ok(-1 - (number - 1) as i64)
}

/// Reads what stands after a minus.
fn read_minus(bytes: &[u8]) -> Result<(i64, &[u8]), LiteralFault>
    ensures { Reads result (option_and_then (int_of minus_int) (u64_at bytes.now)) }
{
    let (number, rest) = read_u64(bytes)?;
    let int = minus_int(number)?;
    Ok((int, rest))
}

/// Reads an int without a minus.
fn read_plain(bytes: &[u8]) -> Result<(i64, &[u8]), LiteralFault>
    ensures { Reads result (option_and_then (int_of plain_int) (u64_at bytes.now)) }
{
    let (number, rest) = read_u64(bytes)?;
    let int = plain_int(number)?;
    Ok((int, rest))
}

/// Reads the int at the start of the bytes.
fn read_int(bytes: &[u8]) -> Result<(i64, &[u8]), LiteralFault>
    ensures { Reads result (int_at bytes.now) }
{
    match bytes {
        [] => Err(LiteralFault::Bad),
        [b'-', rest @ ..] => read_minus(rest),
        _ => read_plain(bytes),
    }
}

/// Reads `true` or `false`.
fn read_bool(bytes: &[u8]) -> Result<(bool, &[u8]), LiteralFault>
    ensures { Reads result (bool_at bytes.now) }
{
    match (strip(b"true", bytes), strip(b"false", bytes)) {
        (Some(rest), _) => Ok((true, rest)),
        (None, Some(rest)) => Ok((false, rest)),
        (None, None) => Err(LiteralFault::Bad),
    }
}

/// Reads the text in quotes at the start of the bytes.
fn text_value(alloc: Global, bytes: &[u8]) -> Result<(Value, &[u8]), LiteralFault>
    ensures { Reads result (as_kind kinds.Text (text_at bytes.now)) }
{
    let (text, rest) = read_text(alloc, bytes)?;
    Ok((Value::Text(text), rest))
}

/// Reads the byte string at the start of the bytes.
fn bytes_value(alloc: Global, bytes: &[u8]) -> Result<(Value, &[u8]), LiteralFault>
    ensures { Reads result (as_kind kinds.Bytes (bytes_at bytes.now)) }
{
    let (blob, rest) = read_bytes(alloc, bytes)?;
    Ok((Value::Bytes(blob), rest))
}

/// Reads the bool at the start of the bytes.
fn bool_value(bytes: &[u8]) -> Result<(Value, &[u8]), LiteralFault>
    ensures { Reads result (as_kind kinds.Bool (bool_at bytes.now)) }
{
    let (flag, rest) = read_bool(bytes)?;
    Ok((Value::Bool(flag), rest))
}

/// Reads the int at the start of the bytes.
fn int_value(bytes: &[u8]) -> Result<(Value, &[u8]), LiteralFault>
    ensures { Reads result (as_kind kinds.Int (int_at bytes.now)) }
{
    let (int, rest) = read_int(bytes)?;
    Ok((Value::Int(int), rest))
}

/// Reads the value at the start of the bytes, and answers what follows it too.
pub fn value_in_front(alloc: Global, bytes: &[u8]) -> Result<(Value, &[u8]), LiteralFault>
    ensures { Reads result (value_at bytes.now) }
{
    match bytes {
        [] => Err(LiteralFault::Bad),
        [b'"', ..] => text_value(alloc, bytes),
        [b'x', ..] => bytes_value(alloc, bytes),
        [b't' | b'f', ..] => bool_value(bytes),
        _ => int_value(bytes),
    }
}

/// Reads the value that the bytes spell, all of them.
pub fn read_value(alloc: Global, text: &[u8]) -> Result<Value, LiteralFault>
    ensures { Gives result (value_of text.now) }
{
    let (value, rest) = value_in_front(alloc, text)?;
    if !rest.is_empty() {
        return Err(LiteralFault::Bad);
    }
    Ok(value)
}

/// Writes a value at the end, or nothing where memory runs out.
pub fn push_value(out: &mut Vec<u8>, value: &Value) -> Result<(), NoMemory>
    ensures ok { OnOk result (out.new.items ≡ out.old.items ++ value_text value.now) }
    ensures err { OnErr result (out.new.items ≡ out.old.items) }
    // What a value is: so what is written is read back.
    ensures sound { IsValue value.now }
{
    match value {
        Value::Int(int) => push_long(out, *int),
        Value::Text(text) => push_str(out, text),
        Value::Bool(flag) => push_bool(out, *flag),
        Value::Bytes(blob) => push_blob(out, blob),
    }
}

/// Writes an int at the end.
fn push_long(out: &mut Vec<u8>, int: i64) -> Result<(), NoMemory>
    ensures ok { OnOk result (out.new.items ≡ out.old.items ++ signed_decimal int) }
    ensures err { OnErr result (out.new.items ≡ out.old.items) }
    ensures sound { IsValue (kinds.Int int) }
{
    push_int(out, int)
}

/// Writes a text in quotes at the end.
#[tactic(auto, using(rel_base::proofs::Utf8::text_sound))]
fn push_str(out: &mut Vec<u8>, text: &Str) -> Result<(), NoMemory>
    ensures ok { OnOk result (out.new.items ≡ out.old.items ++ text_literal text.now) }
    ensures err { OnErr result (out.new.items ≡ out.old.items) }
    ensures sound { is_text text.now ≡ true }
{
    push_text(out, text.as_str())
}

/// Writes a byte string at the end.
fn push_blob(out: &mut Vec<u8>, blob: &Blob) -> Result<(), NoMemory>
    ensures ok { OnOk result (out.new.items ≡ out.old.items ++ bytes_literal blob.now) }
    ensures err { OnErr result (out.new.items ≡ out.old.items) }
    ensures low { AllByRecursion (λ byte. byte < 256) blob.now }
    ensures short { length blob.now ≤ 255 }
{
    push_slice(out, blob.as_slice())
}

/// Writes the spelling of bytes at the end.
fn push_slice(out: &mut Vec<u8>, bytes: &[u8]) -> Result<(), NoMemory>
    ensures ok { OnOk result (out.new.items ≡ out.old.items ++ bytes_literal bytes.now) }
    ensures err { OnErr result (out.new.items ≡ out.old.items) }
    ensures low { AllByRecursion (λ byte. byte < 256) bytes.now }
{
    push_bytes(out, bytes)
}

/// Writes `true` or `false` at the end.
fn push_bool(out: &mut Vec<u8>, flag: bool) -> Result<(), NoMemory>
    ensures ok { OnOk result (out.new.items ≡ out.old.items ++ cond flag (codes "true") (codes "false")) }
    ensures err { OnErr result (out.new.items ≡ out.old.items) }
{
    if flag {
        out.extend_from_slice(b"true")?;
    } else {
        out.extend_from_slice(b"false")?;
    }
    Ok(())
}

/// A value as text.
#[tactic(auto, using(crate::proofs::Again::value_of_again))]
pub fn write_value(alloc: Global, value: &Value) -> Result<List<u8>, NoMemory>
    ensures text { IfOk result (λ bytes. bytes ≡ value_text value.now) }
    // What is written is read back.
    ensures again { IfOk result (λ bytes. value_of bytes ≡ Some value.now) }
{
    let mut out = Vec::new(alloc);
    push_value(&mut out, value)?;
    Ok(List::from_vec(out))
}
