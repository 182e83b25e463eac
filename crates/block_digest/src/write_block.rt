//! The code of a block's result.

ghost use Rattle.std.specs.Prelude.{◌≡◌, ◌<◌, ◌^◌, ◌++◌, All, length, IfOk, OnOk};
ghost use Rattle.std.specs.List.{flat_map};
ghost use Rattle.std.specs.Int.{w64};
ghost use Rattle.canon_code.specs.Codes.{be_code, counted};
ghost use Rattle.canon_code.specs.Values.{int_code};
ghost use Rattle.canon_code.specs.Writes.{write_code};
ghost use Rattle.node_model.specs.BlockCode.{small_code, told_code, block_code};
ghost use Rattle.block_digest.specs.Codable.{HasFewKey, IsFewWrite, IsCodable};

use crate::positions::push_order;
use crate::write_outcome::push_outcome;
use canon_code::short::put_short;
use canon_code::{put_u32, put_u64, put_write};
use node_model::{BlockResult, Told};
use rel_base::{List, NoMemory, Placed};
use std::alloc::Global;

/// Writes a transaction at the end: its id and its outcome.
fn push_told(out: &mut Vec<u8>, told: &Told) -> Result<(), NoMemory>
    requires { HasFewKey told.now.outcome }
    ensures { OnOk result (out.new.items ≡ out.old.items ++ told_code told.now) }
{
    put_short(out, told.id.as_str().as_bytes())?;
    push_outcome(out, &told.outcome)
}

/// Writes transactions at the end.
fn push_all_told(out: &mut Vec<u8>, outcomes: &[Told]) -> Result<(), NoMemory>
    requires { All (λ told. HasFewKey told.outcome) outcomes.now }
    ensures { OnOk result (out.new.items ≡ out.old.items ++ flat_map told_code outcomes.now) }
{
    for told in outcomes {
        push_told(out, told)?;
    }
    Ok(())
}

/// Writes transactions at the end, after their count. There are fewer than 2^32, and each key that one names has at most 32 values.
pub fn push_outcomes(out: &mut Vec<u8>, outcomes: &[Told]) -> Result<(), NoMemory>
    requires few { length outcomes.now < 2 ^ 32 }
    requires keys { All (λ told. HasFewKey told.outcome) outcomes.now }
    ensures { OnOk result (out.new.items ≡ out.old.items ++ counted small_code told_code outcomes.now) }
{
    put_u32(out, outcomes.len() as u32)?;
    push_all_told(out, outcomes)
}

/// Writes writes at the end.
fn push_all_placed(out: &mut Vec<u8>, writes: &[Placed]) -> Result<(), NoMemory>
    requires { All IsFewWrite writes.now }
    ensures { OnOk result (out.new.items ≡ out.old.items ++ flat_map write_code writes.now) }
{
    for placed in writes {
        put_write(out, placed)?;
    }
    Ok(())
}

/// Writes writes at the end, after their count.
fn push_writes(out: &mut Vec<u8>, writes: &List<Placed>) -> Result<(), NoMemory>
    requires few { length writes.now < 2 ^ 32 }
    requires rows { All IsFewWrite writes.now }
    ensures { OnOk result (out.new.items ≡ out.old.items ++ counted small_code write_code writes.now) }
{
    put_u32(out, writes.len() as u32)?;
    push_all_placed(out, writes.as_slice())
}

/// Writes a time at the end.
fn push_time(out: &mut Vec<u8>, time: i64) -> Result<(), NoMemory>
    ensures { OnOk result (out.new.items ≡ out.old.items ++ int_code time) }
{
    put_u64(out, time.cast_unsigned())
}

/// Writes the number and the time of a block at the end, in 8 bytes each.
pub fn push_head(out: &mut Vec<u8>, number: u64, time: i64) -> Result<(), NoMemory>
    ensures { OnOk result (out.new.items ≡ out.old.items ++ (be_code w64 number ++ int_code time)) }
{
    put_u64(out, number)?;
    push_time(out, time)
}

/// Writes the code of a block's result at the end, or a part of it where memory runs out.
fn push_block(out: &mut Vec<u8>, block: &BlockResult) -> Result<(), NoMemory>
    requires { IsCodable block.now }
    ensures { OnOk result (out.new.items ≡ out.old.items ++ block_code block.now) }
{
    push_head(out, block.number, block.time)?;
    push_outcomes(out, block.outcomes.as_slice())?;
    push_order(out, block.order.as_slice())?;
    push_writes(out, &block.writes)
}

/// The code of a block's result, in which its digest has no part. There are fewer than 2^32 outcomes, positions
/// and writes, and at most 32 values in each key and row. The only refusal is out of memory, which is taken for the code alone.
pub fn encode(alloc: Global, block: &BlockResult) -> Result<List<u8>, NoMemory>
    requires { IsCodable block.now }
    ensures { IfOk result (λ bytes. bytes ≡ block_code block.now) }
{
    let mut out = Vec::new(alloc);
    push_block(&mut out, block)?;
    Ok(List::from_vec(out))
}
