//! Rows and keys: one byte for the number of their values, and then the values.

ghost use Rattle.std.specs.Prelude.{◌≡◌, ◌≤◌, ◌++◌, length, take, cond, Some, None, OnOk, OnErr, nat_le};
ghost use Rattle.std.specs.List.{AllByRecursion, flat_map};
ghost use Rattle.canon_code.specs.Parts.{items_at};
ghost use Rattle.canon_code.specs.Reads.{Reads, Gets};
ghost use Rattle.canon_code.specs.Values.{value_code, HasValueCode, value_at};
ghost use Rattle.canon_code.specs.Rows.{row_code, HasRowCode, row_at};

use crate::CodeFault;
use crate::number::read_u8;
use crate::value::{put_value, read_value};
use rel_base::{Key, List, NoMemory, Row, Value};
use std::alloc::Global;

/// The number of values that a row may have.
pub const MOST_VALUES: u8 = 32;

/// Writes values at the end, or a part of them.
fn push_values(out: &mut Vec<u8>, values: &[Value]) -> Result<(), NoMemory>
    ensures ok { OnOk result (out.new.items ≡ out.old.items ++ flat_map value_code values.now) }
    ensures front { take (length out.old.items) out.new.items ≡ out.old.items }
    ensures sound { OnOk result (AllByRecursion HasValueCode values.now) }
{
    for value in values {
        put_value(out, value)?;
    }
    Ok(())
}

/// Writes a row at the end, or a part of it.
#[tactic(auto, using(rel_base::proofs::Bytes::front_front))]
fn push_row(out: &mut Vec<u8>, row: &[Value]) -> Result<(), NoMemory>
    requires { length row.now ≤ 32 }
    ensures ok { OnOk result (out.new.items ≡ out.old.items ++ row_code row.now) }
    ensures front { take (length out.old.items) out.new.items ≡ out.old.items }
    ensures sound { OnOk result (HasRowCode row.now) }
{
    out.push(row.len() as u8)?;
    push_values(out, row)
}

/// Writes the code of a row or a key of at most 32 values at the end, or nothing where memory runs out.
pub fn put_row(out: &mut Vec<u8>, row: &[Value]) -> Result<(), NoMemory>
    requires { length row.now ≤ 32 }
    ensures ok { OnOk result (out.new.items ≡ out.old.items ++ row_code row.now) }
    ensures err { OnErr result (out.new.items ≡ out.old.items) }
    // What a row is: so what is written is read back.
    ensures sound { OnOk result (HasRowCode row.now) }
{
    let start = out.len();
    let pushed = push_row(out, row);
    if pushed.is_err() {
        out.truncate(start);
    }
    pushed
}

/// Reads so many values.
#[tactic(auto, using(crate::proofs::Loop::items_step, crate::proofs::Loop::items_stop, crate::proofs::Loop::items_done))]
fn read_values(alloc: Global, count: u8, bytes: &[u8]) -> Result<(List<Value>, &[u8]), CodeFault>
    ensures { Reads result (items_at value_at count bytes.now) }
{
    let mut values = List::new(alloc);
    let mut rest = bytes;
    for _ in 0..count {
        let (value, after) = read_value(alloc, rest)?;
        values.push(value)?;
        rest = after;
    }
    Ok((values, rest))
}

/// Reads so many values, if they are few enough for a row.
fn read_few(alloc: Global, count: u8, bytes: &[u8]) -> Result<(List<Value>, &[u8]), CodeFault>
    ensures { Reads result (cond (nat_le count 32) (items_at value_at count bytes.now) None) }
{
    if count > MOST_VALUES {
        return Err(CodeFault::Bad);
    }
    read_values(alloc, count, bytes)
}

/// Reads the values whose number and codes stand at the start of the bytes.
fn read_counted(alloc: Global, bytes: &[u8]) -> Result<(List<Value>, &[u8]), CodeFault>
    ensures { Reads result (row_at bytes.now) }
{
    let (count, rest) = read_u8(bytes)?;
    read_few(alloc, count, rest)
}

/// Reads the key whose code stands at the start of the bytes, and answers what follows it too.
pub fn read_key(alloc: Global, bytes: &[u8]) -> Result<(Key, &[u8]), CodeFault>
    ensures { Reads result (row_at bytes.now) }
{
    let (values, rest) = read_counted(alloc, bytes)?;
    Ok((Key::from_list(values)?, rest))
}

/// Reads the row whose code stands at the start of the bytes, and answers what follows it too.
pub fn read_row(alloc: Global, bytes: &[u8]) -> Result<(Row, &[u8]), CodeFault>
    ensures { Reads result (row_at bytes.now) }
{
    let (values, rest) = read_counted(alloc, bytes)?;
    let row = Row::new(values)?;
    Ok((row, rest))
}

/// Reads the row whose code stands at the start of the bytes, and answers the length of its code too. Bytes may follow it.
pub fn get_row(alloc: Global, bytes: &[u8]) -> Result<(Row, usize), CodeFault>
    ensures { Gets row_code HasRowCode bytes.now result }
{
    let (row, rest) = read_row(alloc, bytes)?;
    Ok((row, bytes.len() - rest.len()))
}
