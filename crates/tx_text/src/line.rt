//! Transaction lines.

ghost use Rattle.std.specs.Prelude.{◌≡◌, ◌∷◌, ◌++◌, ◌<◌, ◌≤◌, length, take, cond, Some, None, OnOk, OnErr, IfOk, codes, true, ◌^◌};
ghost use Rattle.rel_base.specs.Text.{has_id_form, has_name_form};
ghost use Rattle.std.specs.Option.{option_and_then};
ghost use Rattle.std.specs.List.{flat_map, AllByRecursion};
ghost use Rattle.literals.specs.Reads.{Reads, Gives};
ghost use Rattle.tx_text.specs.Fields.{is_space, after};
ghost use Rattle.tx_text.specs.Values.{value_at, value_text, IsValue};
ghost use Rattle.tx_text.specs.Lines.{arg_at, args_within, args_of, call_of, height_and_call, tx_form, tx_of, arg_text, head_text, call_text, tx_text, IsTx};
ghost use Rattle.tx_text.specs.Parts.{most_line_bytes};

use crate::field::{read_id, read_name, skip};
use crate::value::{push_value, read_u64, value_in_front};
use literals::{LiteralFault, push_number};
use proc_syntax::Tx;
use rel_base::{Id, List, Name, NoMemory, Row, Value};
use std::alloc::Global;

/// The number of bytes that a line may have before its newline.
pub const MOST_LINE_BYTES: usize = 4096;

/// Reads an argument and the space before it.
fn read_arg(alloc: Global, bytes: &[u8]) -> Result<(Value, &[u8]), LiteralFault>
    ensures value { Reads result (arg_at bytes.now) }
{
    match bytes {
        [b' ', text @ ..] => value_in_front(alloc, text),
        _ => Err(LiteralFault::Bad),
    }
}

/// Reads the arguments that the bytes spell, each after a space.
#[tactic(auto, using(crate::proofs::Args::args_step, crate::proofs::Args::arg_shorter, crate::proofs::Args::args_stop))]
pub fn read_args(alloc: Global, bytes: &[u8]) -> Result<List<Value>, LiteralFault>
    ensures { Gives result (args_of bytes.now) }
{
    let mut args = List::new(alloc);
    let mut rest = bytes;
    while !rest.is_empty() {
        let (value, after) = read_arg(alloc, rest)?;
        args.push(value)?;
        rest = after;
    }
    Ok(args)
}

/// Reads `PROCEDURE` and the arguments.
fn read_call(alloc: Global, id: Id, height: u64, bytes: &[u8]) -> Result<Tx, LiteralFault>
    ensures { Gives result (call_of id height bytes.now) }
{
    let (procedure, rest) = read_name(alloc, bytes)?;
    let args = read_args(alloc, rest)?;
    Ok(Tx {
        id,
        height,
        procedure,
        args: Row::new(args)?,
    })
}

/// Reads `HEIGHT PROCEDURE` and the arguments.
fn read_height_and_call(alloc: Global, id: Id, bytes: &[u8]) -> Result<Tx, LiteralFault>
    ensures { Gives result (height_and_call id bytes.now) }
{
    let (height, rest) = read_u64(bytes)?;
    let rest = skip(b" ", rest)?;
    read_call(alloc, id, height, rest)
}

/// Reads the fields of a transaction line, of any length.
fn read_form(alloc: Global, line: &[u8]) -> Result<Tx, LiteralFault>
    ensures { Gives result (tx_form line.now) }
{
    let rest = skip(b"tx ", line)?;
    let (id, rest) = read_id(alloc, rest)?;
    let rest = skip(b" ", rest)?;
    read_height_and_call(alloc, id, rest)
}

/// Reads the transaction of a line, which stands here without its newline. A line that spells none is `Bad`.
pub fn read_tx(alloc: Global, line: &[u8]) -> Result<Tx, LiteralFault>
    ensures { Gives result (tx_of line.now) }
{
    if line.len() > MOST_LINE_BYTES {
        return Err(LiteralFault::Bad);
    }
    read_form(alloc, line)
}

/// Writes an argument and the space before it at the end.
fn push_arg(out: &mut Vec<u8>, value: &Value) -> Result<(), NoMemory>
    ensures ok { OnOk result (out.new.items ≡ out.old.items ++ arg_text value.now) }
    ensures front { take (length out.old.items) out.new.items ≡ out.old.items }
    ensures sound { OnOk result (IsValue value.now) }
{
    out.push(b' ')?;
    push_value(out, value)?;
    Ok(())
}

/// Writes arguments at the end, each after a space.
fn push_args(out: &mut Vec<u8>, args: &[Value]) -> Result<(), NoMemory>
    ensures ok { OnOk result (out.new.items ≡ out.old.items ++ flat_map arg_text args.now) }
    ensures front { take (length out.old.items) out.new.items ≡ out.old.items }
    ensures sound { OnOk result (AllByRecursion IsValue args.now) }
{
    for value in args {
        push_arg(out, value)?;
    }
    Ok(())
}

/// Writes `tx ID HEIGHT` at the end.
fn push_head(out: &mut Vec<u8>, tx: &Tx) -> Result<(), NoMemory>
    ensures ok { OnOk result (out.new.items ≡ out.old.items ++ head_text tx.now) }
    ensures front { take (length out.old.items) out.new.items ≡ out.old.items }
    ensures id { OnOk result (has_id_form tx.now.id ≡ true) }
    ensures height { OnOk result (tx.now.height < 2 ^ 64) }
{
    out.extend_from_slice(b"tx ")?;
    out.extend_from_slice(tx.id.as_str().as_bytes())?;
    out.push(b' ')?;
    push_number(out, tx.height)?;
    Ok(())
}

/// Writes a name and the space before it at the end.
fn push_name(out: &mut Vec<u8>, name: &Name) -> Result<(), NoMemory>
    ensures ok { OnOk result (out.new.items ≡ out.old.items ++ 32 ∷ name.now) }
    ensures front { take (length out.old.items) out.new.items ≡ out.old.items }
    ensures form { OnOk result (has_name_form name.now ≡ true) }
{
    out.push(b' ')?;
    out.extend_from_slice(name.as_str().as_bytes())?;
    Ok(())
}

/// Writes `PROCEDURE` and the arguments at the end, each after a space.
#[tactic(auto, using(rel_base::proofs::Bytes::front_front))]
fn push_call(out: &mut Vec<u8>, tx: &Tx) -> Result<(), NoMemory>
    ensures ok { OnOk result (out.new.items ≡ out.old.items ++ call_text tx.now) }
    ensures front { take (length out.old.items) out.new.items ≡ out.old.items }
    ensures procedure { OnOk result (has_name_form tx.now.procedure ≡ true) }
    ensures args { OnOk result (AllByRecursion IsValue tx.now.args) }
{
    push_name(out, &tx.procedure)?;
    push_args(out, tx.args.as_slice())
}

/// Writes the fields of a transaction at the end, or a part of them.
fn push_fields(out: &mut Vec<u8>, tx: &Tx) -> Result<(), NoMemory>
    ensures ok { OnOk result (out.new.items ≡ out.old.items ++ tx_text tx.now) }
    ensures front { take (length out.old.items) out.new.items ≡ out.old.items }
    ensures sound { OnOk result (IsTx tx.now) }
{
    push_head(out, tx)?;
    push_call(out, tx)
}

/// Writes the line of a transaction at the end, without a newline, or nothing where memory runs out.
pub fn push_tx(out: &mut Vec<u8>, tx: &Tx) -> Result<(), NoMemory>
    ensures ok { OnOk result (out.new.items ≡ out.old.items ++ tx_text tx.now) }
    ensures err { OnErr result (out.new.items ≡ out.old.items) }
{
    let start = out.len();
    let pushed = push_fields(out, tx);
    if pushed.is_err() {
        out.truncate(start);
    }
    pushed
}

/// The line of a transaction, without a newline.
#[tactic(auto, using(crate::proofs::Again::tx_again))]
pub fn write_tx(alloc: Global, tx: &Tx) -> Result<List<u8>, NoMemory>
    ensures text { IfOk result (λ line. line ≡ tx_text tx.now) }
    // What is written is read back, where the line is not too long.
    ensures again { IfOk result (λ line. length line ≤ most_line_bytes → tx_of line ≡ Some tx.now) }
{
    let mut out = Vec::new(alloc);
    push_fields(&mut out, tx)?;
    Ok(List::from_vec(out))
}
