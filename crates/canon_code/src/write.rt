//! Writes: the position of the transaction, the number of the table, the key, and what became of the row.

ghost use Rattle.std.specs.Prelude.{◌≡◌, ◌≤◌, ◌∷◌, ◌++◌, ◌⊎◌, [], length, take, Some, None, OnOk, OnErr, IsSome};
ghost use Rattle.std.specs.Int.{w32};
ghost use Rattle.canon_code.specs.Codes.{be_code};
ghost use Rattle.canon_code.specs.Reads.{Reads, Gets};
ghost use Rattle.canon_code.specs.Rows.{row_code, key_code, HasRowCode};
ghost use Rattle.canon_code.specs.Writes.{head_code, change_code, write_code, HasHeadCode, HasChangeCode, HasWriteCode, IsFewPart, insert_at, update_at, delete_at, change_at, write_at};

use crate::CodeFault;
use crate::number::{put_u32, read_u32};
use crate::row::{put_row, read_key, read_row};
use rel_base::{NoMemory, Placed, Row, Write};
use std::alloc::Global;

/// The row before a write and the row after it.
#[derive(Drop)]
pub struct RowChange {
    pub before: Option<Row>,
    pub after: Option<Row>,
}

/// Writes a byte and a row at the end, or a part of that.
fn push_kind_and_row(out: &mut Vec<u8>, kind: u8, row: &Row) -> Result<(), NoMemory>
    requires { length row.now ≤ 32 }
    ensures ok { OnOk result (out.new.items ≡ out.old.items ++ kind ∷ row_code row.now) }
    ensures front { take (length out.old.items) out.new.items ≡ out.old.items }
    ensures sound { OnOk result (HasRowCode row.now) }
{
    out.push(kind)?;
    put_row(out, row.as_slice())
}

/// Writes an update at the end, or a part of it.
#[tactic(auto, using(rel_base::proofs::Bytes::front_front))]
fn push_update(out: &mut Vec<u8>, before: &Row, after: &Row) -> Result<(), NoMemory>
    requires before { length before.now ≤ 32 }
    requires after { length after.now ≤ 32 }
    ensures ok { OnOk result (out.new.items ≡ out.old.items ++ 2 ∷ row_code before.now ++ row_code after.now) }
    ensures front { take (length out.old.items) out.new.items ≡ out.old.items }
    ensures sound { OnOk result (HasRowCode before.now × HasRowCode after.now) }
{
    push_kind_and_row(out, 2, before)?;
    put_row(out, after.as_slice())
}

/// Writes at the end what became of a row, or a part of that.
fn push_change(out: &mut Vec<u8>, before: &Option<Row>, after: &Option<Row>) -> Result<(), NoMemory>
    requires before { IsFewPart before.now }
    requires after { IsFewPart after.now }
    ensures ok { OnOk result (out.new.items ≡ out.old.items ++ change_code before.now after.now) }
    ensures front { take (length out.old.items) out.new.items ≡ out.old.items }
    ensures sound { OnOk result (IsSome before.now ⊎ IsSome after.now → HasChangeCode before.now after.now) }
{
    match (before, after) {
        (None, None) => Ok(out.push(0)?),
        (None, Some(after)) => push_kind_and_row(out, 1, after),
        (Some(before), Some(after)) => push_update(out, before, after),
        (Some(before), None) => push_kind_and_row(out, 3, before),
    }
}

/// Writes the position, the table and the key of a write at the end, or a part of that.
fn push_head(out: &mut Vec<u8>, pos: u32, write: &Write) -> Result<(), NoMemory>
    requires { length write.now.key ≤ 32 }
    ensures ok { OnOk result (out.new.items ≡ out.old.items ++ head_code (record { pos = pos; write = write.now })) }
    ensures front { take (length out.old.items) out.new.items ≡ out.old.items }
    ensures sound { OnOk result (HasHeadCode (record { pos = pos; write = write.now })) }
{
    put_u32(out, pos)?;
    put_u32(out, write.table)?;
    put_row(out, write.key.as_slice())
}

/// Writes a write at the end, or a part of it.
#[tactic(auto, using(rel_base::proofs::Bytes::front_front))]
fn push_write(out: &mut Vec<u8>, pos: u32, write: &Write) -> Result<(), NoMemory>
    requires key { length write.now.key ≤ 32 }
    requires before { IsFewPart write.now.before }
    requires after { IsFewPart write.now.after }
    ensures ok { OnOk result (out.new.items ≡ out.old.items ++ write_code (record { pos = pos; write = write.now })) }
    ensures front { take (length out.old.items) out.new.items ≡ out.old.items }
    ensures sound { OnOk result (IsSome write.now.before ⊎ IsSome write.now.after → HasWriteCode (record { pos = pos; write = write.now })) }
{
    push_head(out, pos, write)?;
    push_change(out, &write.before, &write.after)
}

/// Writes at the end the code of a write of the transaction at a position, or nothing where memory runs out. Its rows and its key
/// have at most 32 values.
pub fn put_write_at(out: &mut Vec<u8>, pos: u32, write: &Write) -> Result<(), NoMemory>
    requires key { length write.now.key ≤ 32 }
    requires before { IsFewPart write.now.before }
    requires after { IsFewPart write.now.after }
    ensures ok { OnOk result (out.new.items ≡ out.old.items ++ write_code (record { pos = pos; write = write.now })) }
    ensures err { OnErr result (out.new.items ≡ out.old.items) }
    // What a write is, where it has a row: so what is written is read back.
    ensures sound { OnOk result (IsSome write.now.before ⊎ IsSome write.now.after → HasWriteCode (record { pos = pos; write = write.now })) }
{
    let start = out.len();
    let pushed = push_write(out, pos, write);
    if pushed.is_err() {
        out.truncate(start);
    }
    pushed
}

/// Writes the code of a write at the end, or nothing where memory runs out. Its rows and its key have at most 32 values.
pub fn put_write(out: &mut Vec<u8>, placed: &Placed) -> Result<(), NoMemory>
    requires key { length placed.now.write.key ≤ 32 }
    requires before { IsFewPart placed.now.write.before }
    requires after { IsFewPart placed.now.write.after }
    ensures ok { OnOk result (out.new.items ≡ out.old.items ++ write_code placed.now) }
    ensures err { OnErr result (out.new.items ≡ out.old.items) }
    // What a write is, where it has a row: so what is written is read back.
    ensures sound { OnOk result (IsSome placed.now.write.before ⊎ IsSome placed.now.write.after → HasWriteCode placed.now) }
{
    put_write_at(out, placed.pos, &placed.write)
}

/// Reads the row after an insert.
fn read_insert(alloc: Global, bytes: &[u8]) -> Result<(RowChange, &[u8]), CodeFault>
    ensures { Reads result (insert_at bytes.now) }
{
    let (after, rest) = read_row(alloc, bytes)?;
    let change = RowChange {
        before: None,
        after: Some(after),
    };
    Ok((change, rest))
}

/// Reads the rows before and after an update.
fn read_update(alloc: Global, bytes: &[u8]) -> Result<(RowChange, &[u8]), CodeFault>
    ensures { Reads result (update_at bytes.now) }
{
    let (before, rest) = read_row(alloc, bytes)?;
    let (after, rest) = read_row(alloc, rest)?;
    let change = RowChange {
        before: Some(before),
        after: Some(after),
    };
    Ok((change, rest))
}

/// Reads the row before a delete.
fn read_delete(alloc: Global, bytes: &[u8]) -> Result<(RowChange, &[u8]), CodeFault>
    ensures { Reads result (delete_at bytes.now) }
{
    let (before, rest) = read_row(alloc, bytes)?;
    let change = RowChange {
        before: Some(before),
        after: None,
    };
    Ok((change, rest))
}

/// Reads what became of a row.
fn read_change(alloc: Global, bytes: &[u8]) -> Result<(RowChange, &[u8]), CodeFault>
    ensures { Reads result (change_at bytes.now) }
{
    match bytes {
        [1, rest @ ..] => read_insert(alloc, rest),
        [2, rest @ ..] => read_update(alloc, rest),
        [3, rest @ ..] => read_delete(alloc, rest),
        _ => Err(CodeFault::Bad),
    }
}

/// Reads the write whose code stands at the start of the bytes, and answers what follows it too.
pub fn read_write(alloc: Global, bytes: &[u8]) -> Result<(Placed, &[u8]), CodeFault>
    ensures { Reads result (write_at bytes.now) }
{
    let (pos, rest) = read_u32(bytes)?;
    let (table, rest) = read_u32(rest)?;
    let (key, rest) = read_key(alloc, rest)?;
    let (change, rest) = read_change(alloc, rest)?;
    let RowChange { before, after } = change;
    let write = Write {
        table,
        key,
        before,
        after,
    };
    Ok((Placed { pos, write }, rest))
}

/// Reads the write whose code stands at the start of the bytes, and answers the length of its code too. Bytes may follow it.
pub fn get_write(alloc: Global, bytes: &[u8]) -> Result<(Placed, usize), CodeFault>
    ensures { Gets write_code HasWriteCode bytes.now result }
{
    let (placed, rest) = read_write(alloc, bytes)?;
    Ok((placed, bytes.len() - rest.len()))
}
