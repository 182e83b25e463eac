//! The readers of outcomes.

ghost use Rattle.std.specs.Prelude.{◌≡◌, ◌==◌, Some, None};
ghost use Rattle.canon_code.specs.Reads.{Reads};
ghost use Rattle.node_model.specs.declared.danger.Danger.TheVariants as danger;
ghost use Rattle.node_model.specs.declared.outcome.Outcome.TheVariants as outcome;
ghost use Rattle.proc_syntax.specs.declared.fault.Fault.TheVariants as fault;
ghost use Rattle.canon_code.specs.Values.{text_at};
ghost use Rattle.block_digest.specs.Joined.{made_at, then_at};
ghost use Rattle.block_digest.specs.Readings.{small_at, one_of, two_of, path_at, late_at, fault_at, clash_at, danger_at, outcome_at};

use crate::positions::read_path;
use canon_code::{CodeFault, read_key, read_text, read_u32, read_u64};
use node_model::{Clash, Danger, Late, Outcome};
use proc_syntax::Fault;
use rel_base::Place;
use std::alloc::Global;

/// Reads a late read.
fn read_late(alloc: Global, stale: bool, bytes: &[u8]) -> Result<(Outcome, &[u8]), CodeFault>
    ensures { Reads result (made_at outcome.Late (late_at stale) bytes.now) }
{
    let (read, rest) = read_u32(bytes)?;
    let (block, rest) = read_u64(rest)?;
    let (pos, rest) = read_u32(rest)?;
    let (table, rest) = read_u32(rest)?;
    let (key, rest) = read_key(alloc, rest)?;
    let late = Late {
        stale,
        read,
        place: Place { block, pos },
        table,
        key,
    };
    Ok((Outcome::of_late(alloc, late)?, rest))
}

/// Reads the text of a statement `fail`.
fn read_failed(alloc: Global, bytes: &[u8]) -> Result<(Fault, &[u8]), CodeFault>
    ensures { Reads result (made_at fault.Failed text_at bytes.now) }
{
    let (text, rest) = read_text(alloc, bytes)?;
    Ok((Fault::Failed(text), rest))
}

/// Reads why a run ended without its writes.
fn read_fault(alloc: Global, bytes: &[u8]) -> Result<(Fault, &[u8]), CodeFault>
    ensures { Reads result (fault_at bytes.now) }
{
    match bytes {
        [1, rest @ ..] => Ok((Fault::Overflow, rest)),
        [2, rest @ ..] => Ok((Fault::ZeroDivide, rest)),
        [3, rest @ ..] => Ok((Fault::DuplicateKey, rest)),
        [4, rest @ ..] => Ok((Fault::NoRow, rest)),
        [5, rest @ ..] => Ok((Fault::TextTooLong, rest)),
        [6, rest @ ..] => Ok((Fault::Steps, rest)),
        [7, rest @ ..] => read_failed(alloc, rest),
        _ => Err(CodeFault::Bad),
    }
}

/// Reads a fault.
fn read_faulted(alloc: Global, bytes: &[u8]) -> Result<(Outcome, &[u8]), CodeFault>
    ensures { Reads result (made_at outcome.Fault fault_at bytes.now) }
{
    let (fault, rest) = read_fault(alloc, bytes)?;
    Ok((Outcome::of_fault(alloc, fault)?, rest))
}

/// Reads a write conflict.
fn read_clash(alloc: Global, bytes: &[u8]) -> Result<(Outcome, &[u8]), CodeFault>
    ensures { Reads result (made_at outcome.WriteConflict clash_at bytes.now) }
{
    let (with, rest) = read_u32(bytes)?;
    let (table, rest) = read_u32(rest)?;
    let (key, rest) = read_key(alloc, rest)?;
    let clash = Clash { with, table, key };
    Ok((Outcome::of_clash(alloc, clash)?, rest))
}

/// Reads the positions of a danger of the first form.
fn read_one(bytes: &[u8]) -> Result<(Danger, &[u8]), CodeFault>
    ensures { Reads result (made_at one_of (then_at small_at small_at) bytes.now) }
{
    let (z, rest) = read_u32(bytes)?;
    let (x, rest) = read_u32(rest)?;
    Ok((Danger::One { z, x }, rest))
}

/// Reads the positions of a danger of the second form.
fn read_two(bytes: &[u8]) -> Result<(Danger, &[u8]), CodeFault>
    ensures { Reads result (made_at two_of (then_at small_at small_at) bytes.now) }
{
    let (y, rest) = read_u32(bytes)?;
    let (z, rest) = read_u32(rest)?;
    Ok((Danger::Two { y, z }, rest))
}

/// Reads the path of a cycle.
fn read_cycle(alloc: Global, bytes: &[u8]) -> Result<(Danger, &[u8]), CodeFault>
    ensures { Reads result (made_at danger.Cycle path_at bytes.now) }
{
    let (path, rest) = read_path(alloc, bytes)?;
    Ok((Danger::Cycle { path }, rest))
}

/// Reads the form and the positions of a danger.
fn read_form(alloc: Global, bytes: &[u8]) -> Result<(Danger, &[u8]), CodeFault>
    ensures { Reads result (danger_at bytes.now) }
{
    match bytes {
        [1, rest @ ..] => read_one(rest),
        [2, rest @ ..] => read_two(rest),
        [3, rest @ ..] => read_cycle(alloc, rest),
        _ => Err(CodeFault::Bad),
    }
}

/// Reads a danger.
fn read_danger(alloc: Global, bytes: &[u8]) -> Result<(Outcome, &[u8]), CodeFault>
    ensures { Reads result (made_at outcome.Danger danger_at bytes.now) }
{
    let (danger, rest) = read_form(alloc, bytes)?;
    Ok((Outcome::of_danger(alloc, danger)?, rest))
}

/// Reads the outcome whose code stands at the start of the bytes, and answers what follows it too.
pub fn read_outcome(alloc: Global, bytes: &[u8]) -> Result<(Outcome, &[u8]), CodeFault>
    ensures { Reads result (outcome_at bytes.now) }
{
    match bytes {
        [0, rest @ ..] => Ok((Outcome::Committed, rest)),
        [1, rest @ ..] => Ok((Outcome::DuplicateId, rest)),
        [2, rest @ ..] => Ok((Outcome::FutureHeight, rest)),
        [3, rest @ ..] => Ok((Outcome::UnknownProcedure, rest)),
        [4, rest @ ..] => Ok((Outcome::BadArguments, rest)),
        [5, rest @ ..] => read_late(alloc, true, rest),
        [6, rest @ ..] => read_late(alloc, false, rest),
        [7, rest @ ..] => read_faulted(alloc, rest),
        [8, rest @ ..] => read_clash(alloc, rest),
        [9, rest @ ..] => read_danger(alloc, rest),
        _ => Err(CodeFault::Bad),
    }
}
