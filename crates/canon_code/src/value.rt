//! Values: a byte for the kind, and then the value.

ghost use Rattle.std.specs.Prelude.{◌≡◌, ◌∷◌, ◌++◌, length, take, OnOk, OnErr};
ghost use Rattle.rel_base.specs.declared.value.Value.TheVariants as kinds;
ghost use Rattle.rel_base.specs.Reading.{as_kind};
ghost use Rattle.canon_code.specs.Codes.{HasShortCode, short_code};
ghost use Rattle.canon_code.specs.Parts.{short_at};
ghost use Rattle.canon_code.specs.Reads.{Reads, Gets};
ghost use Rattle.canon_code.specs.Values.{int_code, bool_code, value_code, HasValueCode, int_at, text_at, bool_at, value_at};

use crate::CodeFault;
use crate::number::{put_u64, read_u64};
use crate::short::{put_blob, put_text, read_blob, read_text};
use rel_base::{Blob, NoMemory, Str, Value};
use std::alloc::Global;

/// Writes an int and the byte of its kind at the end, or a part of that.
fn push_int(out: &mut Vec<u8>, int: i64) -> Result<(), NoMemory>
    ensures ok { OnOk result (out.new.items ≡ out.old.items ++ 1 ∷ int_code int) }
    ensures front { take (length out.old.items) out.new.items ≡ out.old.items }
    ensures sound { HasValueCode (kinds.Int int) }
{
    out.push(1)?;
    put_u64(out, int.cast_unsigned())
}

/// Writes a text and the byte of its kind at the end, or a part of that.
fn push_text(out: &mut Vec<u8>, text: &Str) -> Result<(), NoMemory>
    ensures ok { OnOk result (out.new.items ≡ out.old.items ++ 2 ∷ short_code text.now) }
    ensures front { take (length out.old.items) out.new.items ≡ out.old.items }
    ensures sound { OnOk result (HasValueCode (kinds.Text text.now)) }
{
    out.push(2)?;
    put_text(out, text)
}

/// Writes a bool and the byte of its kind at the end, or nothing where memory runs out.
fn push_bool(out: &mut Vec<u8>, flag: bool) -> Result<(), NoMemory>
    ensures ok { OnOk result (out.new.items ≡ out.old.items ++ 3 ∷ bool_code flag) }
    ensures front { take (length out.old.items) out.new.items ≡ out.old.items }
{
    out.extend_from_slice(&[3, u8::from(flag)])?;
    Ok(())
}

/// Writes a byte string and the byte of its kind at the end, or a part of that.
fn push_blob(out: &mut Vec<u8>, blob: &Blob) -> Result<(), NoMemory>
    ensures ok { OnOk result (out.new.items ≡ out.old.items ++ 4 ∷ short_code blob.now) }
    ensures front { take (length out.old.items) out.new.items ≡ out.old.items }
    ensures sound { OnOk result (HasShortCode blob.now) }
{
    out.push(4)?;
    put_blob(out, blob)
}

/// Writes a value at the end, or a part of it.
fn push_value(out: &mut Vec<u8>, value: &Value) -> Result<(), NoMemory>
    ensures ok { OnOk result (out.new.items ≡ out.old.items ++ value_code value.now) }
    ensures front { take (length out.old.items) out.new.items ≡ out.old.items }
    ensures sound { OnOk result (HasValueCode value.now) }
{
    match value {
        Value::Int(int) => push_int(out, *int),
        Value::Text(text) => push_text(out, text),
        Value::Bool(flag) => push_bool(out, *flag),
        Value::Bytes(blob) => push_blob(out, blob),
    }
}

/// Writes the code of a value at the end, or nothing where memory runs out.
pub fn put_value(out: &mut Vec<u8>, value: &Value) -> Result<(), NoMemory>
    ensures ok { OnOk result (out.new.items ≡ out.old.items ++ value_code value.now) }
    ensures err { OnErr result (out.new.items ≡ out.old.items) }
    // What a value is: so what is written is read back.
    ensures sound { OnOk result (HasValueCode value.now) }
{
    let start = out.len();
    let pushed = push_value(out, value);
    if pushed.is_err() {
        out.truncate(start);
    }
    pushed
}

/// Reads an int.
fn read_int(bytes: &[u8]) -> Result<(Value, &[u8]), CodeFault>
    ensures { Reads result (as_kind kinds.Int (int_at bytes.now)) }
{
    let (bits, rest) = read_u64(bytes)?;
    Ok((Value::Int(bits.cast_signed()), rest))
}

/// Reads a text.
fn text_value(alloc: Global, bytes: &[u8]) -> Result<(Value, &[u8]), CodeFault>
    ensures { Reads result (as_kind kinds.Text (text_at bytes.now)) }
{
    let (text, rest) = read_text(alloc, bytes)?;
    Ok((Value::Text(text), rest))
}

/// Reads a bool.
fn read_bool(bytes: &[u8]) -> Result<(Value, &[u8]), CodeFault>
    ensures { Reads result (as_kind kinds.Bool (bool_at bytes.now)) }
{
    match bytes {
        [0, rest @ ..] => Ok((Value::Bool(false), rest)),
        [1, rest @ ..] => Ok((Value::Bool(true), rest)),
        _ => Err(CodeFault::Bad),
    }
}

/// Reads a byte string.
fn blob_value(alloc: Global, bytes: &[u8]) -> Result<(Value, &[u8]), CodeFault>
    ensures { Reads result (as_kind kinds.Bytes (short_at bytes.now)) }
{
    let (blob, rest) = read_blob(alloc, bytes)?;
    Ok((Value::Bytes(blob), rest))
}

/// Reads the value whose code stands at the start of the bytes, and answers what follows it too.
pub fn read_value(alloc: Global, bytes: &[u8]) -> Result<(Value, &[u8]), CodeFault>
    ensures { Reads result (value_at bytes.now) }
{
    match bytes {
        [1, rest @ ..] => read_int(rest),
        [2, rest @ ..] => text_value(alloc, rest),
        [3, rest @ ..] => read_bool(rest),
        [4, rest @ ..] => blob_value(alloc, rest),
        _ => Err(CodeFault::Bad),
    }
}

/// Reads the value whose code stands at the start of the bytes, and answers the length of its code too. Bytes may follow it.
pub fn get_value(alloc: Global, bytes: &[u8]) -> Result<(Value, usize), CodeFault>
    ensures { Gets value_code HasValueCode bytes.now result }
{
    let (value, rest) = read_value(alloc, bytes)?;
    Ok((value, bytes.len() - rest.len()))
}
