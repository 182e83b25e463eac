//! The codes of outcomes.

ghost use Rattle.std.specs.Prelude.{◌≡◌, ◌≤◌, ◌∷◌, ◌++◌, [], length, OnOk};
ghost use Rattle.std.specs.Int.{w64};
ghost use Rattle.canon_code.specs.Codes.{be_code};
ghost use Rattle.canon_code.specs.Rows.{key_code};
ghost use Rattle.node_model.specs.BlockCode.{small_code, late_code, fault_details, fault_code, clash_code, danger_details, danger_code, outcome_details, outcome_code};
ghost use Rattle.block_digest.specs.Codable.{HasFewKey, HasFewPath};

use crate::positions::push_order;
use canon_code::{put_row, put_text, put_u32, put_u64};
use node_model::{Clash, Danger, Late, Outcome, fault_mark};
use proc_syntax::Fault;
use rel_base::{Key, NoMemory};

/// Writes a byte at the end.
fn push_byte(out: &mut Vec<u8>, byte: u8) -> Result<(), NoMemory>
    ensures { OnOk result (out.new.items ≡ out.old.items ++ byte ∷ []) }
{
    out.push(byte)?;
    Ok(())
}

/// Writes a key of a table at the end, after the position that wrote it.
fn push_ref(out: &mut Vec<u8>, pos: u32, table: u32, key: &Key) -> Result<(), NoMemory>
    requires { length key.now ≤ 32 }
    ensures { OnOk result (out.new.items ≡ out.old.items ++ (small_code pos ++ small_code table ++ key_code key.now)) }
{
    put_u32(out, pos)?;
    put_u32(out, table)?;
    put_row(out, key.as_slice())
}

/// Writes at the end how a late read begins: its number and the block of the write.
fn push_late_read(out: &mut Vec<u8>, late: &Late) -> Result<(), NoMemory>
    ensures { OnOk result (out.new.items ≡ out.old.items ++ (small_code late.now.read ++ be_code w64 late.now.place.block)) }
{
    put_u32(out, late.read)?;
    put_u64(out, late.place.block)
}

/// Writes a late read at the end.
fn push_late(out: &mut Vec<u8>, late: &Late) -> Result<(), NoMemory>
    requires { length late.now.key ≤ 32 }
    ensures { OnOk result (out.new.items ≡ out.old.items ++ late_code late.now) }
{
    push_late_read(out, late)?;
    push_ref(out, late.place.pos, late.table, &late.key)
}

/// Writes at the end the text of a statement `fail`, which no other fault has.
fn push_fault_details(out: &mut Vec<u8>, fault: &Fault) -> Result<(), NoMemory>
    ensures { OnOk result (out.new.items ≡ out.old.items ++ fault_details fault.now) }
{
    match fault {
        Fault::Failed(text) => put_text(out, text),
        _ => Ok(()),
    }
}

/// Writes at the end why a run ended without its writes: its byte, and its text.
fn push_fault(out: &mut Vec<u8>, fault: &Fault) -> Result<(), NoMemory>
    ensures { OnOk result (out.new.items ≡ out.old.items ++ fault_code fault.now) }
{
    let (_, byte) = fault_mark(fault);
    push_byte(out, byte)?;
    push_fault_details(out, fault)
}

/// Writes two positions at the end.
fn push_positions(out: &mut Vec<u8>, first: u32, second: u32) -> Result<(), NoMemory>
    ensures { OnOk result (out.new.items ≡ out.old.items ++ (small_code first ++ small_code second)) }
{
    put_u32(out, first)?;
    put_u32(out, second)
}

/// Writes the positions of a danger at the end.
fn push_danger_details(out: &mut Vec<u8>, danger: &Danger) -> Result<(), NoMemory>
    requires { HasFewPath danger.now }
    ensures { OnOk result (out.new.items ≡ out.old.items ++ danger_details danger.now) }
{
    match danger {
        Danger::One { z, x } => push_positions(out, *z, *x),
        Danger::Two { y, z } => push_positions(out, *y, *z),
        Danger::Cycle { path } => push_order(out, path.as_slice()),
    }
}

/// Writes a danger at the end: the byte of its form, and its positions.
fn push_danger(out: &mut Vec<u8>, danger: &Danger) -> Result<(), NoMemory>
    requires { HasFewPath danger.now }
    ensures { OnOk result (out.new.items ≡ out.old.items ++ danger_code danger.now) }
{
    let (_, byte) = danger.mark();
    push_byte(out, byte)?;
    push_danger_details(out, danger)
}

/// Writes a write conflict at the end.
fn push_clash(out: &mut Vec<u8>, clash: &Clash) -> Result<(), NoMemory>
    requires { length clash.now.key ≤ 32 }
    ensures { OnOk result (out.new.items ≡ out.old.items ++ clash_code clash.now) }
{
    push_ref(out, clash.with, clash.table, &clash.key)
}

/// Writes at the end what an outcome names.
fn push_details(out: &mut Vec<u8>, outcome: &Outcome) -> Result<(), NoMemory>
    requires { HasFewKey outcome.now }
    ensures { OnOk result (out.new.items ≡ out.old.items ++ outcome_details outcome.now) }
{
    match outcome {
        Outcome::Late(late) => push_late(out, late.get()),
        Outcome::Fault(fault) => push_fault(out, fault.get()),
        Outcome::WriteConflict(clash) => push_clash(out, clash.get()),
        Outcome::Danger(danger) => push_danger(out, danger.get()),
        _ => Ok(()),
    }
}

/// Writes the code of an outcome at the end, or a part of it where memory runs out.
pub fn push_outcome(out: &mut Vec<u8>, outcome: &Outcome) -> Result<(), NoMemory>
    requires { HasFewKey outcome.now }
    ensures { OnOk result (out.new.items ≡ out.old.items ++ outcome_code outcome.now) }
{
    push_byte(out, outcome.kind().byte())?;
    push_details(out, outcome)
}
