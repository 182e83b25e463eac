//! Positions of a block's transactions: in its order, and on the path of a cycle.

ghost use Rattle.std.specs.Prelude.{◌≡◌, ◌<◌, ◌^◌, ◌++◌, length, not, OnOk};
ghost use Rattle.std.specs.Bool.{nat_eq};
ghost use Rattle.std.specs.List.{flat_map, list_all};
ghost use Rattle.canon_code.specs.Codes.{counted};
ghost use Rattle.canon_code.specs.Parts.{counted_at};
ghost use Rattle.canon_code.specs.Reads.{Reads};
ghost use Rattle.node_model.specs.BlockCode.{small_code};
ghost use Rattle.block_digest.specs.Grammar.{are_apart, is_way, most_on_path, most_outcomes};
ghost use Rattle.block_digest.specs.Readings.{is_position, path_at, position_at, small_at};

use crate::items::{Item, read_items};
use canon_code::{CodeFault, put_u32, read_u32};
use rel_base::{List, NoMemory};
use std::alloc::Global;

/// The most transactions of a block.
pub const MOST_OUTCOMES: u32 = 1024;

/// The most transactions on the path of a cycle.
pub const MOST_ON_PATH: u32 = 1023;

/// Whether a position is one of a block of so many transactions.
pub fn is_position(count: usize, position: u32) -> bool
    ensures { result ≡ is_position count position }
{
    1 <= position && position as usize <= count
}

/// A position of a block of so many transactions.
impl Item for u32 {
    ghost item_at = { position_at };

    fn read<'a>(
        _alloc: Global,
        count: usize,
        bytes: &'a [u8],
    ) -> Result<(u32, &'a [u8]), CodeFault> {
        let (position, rest) = read_u32(bytes)?;
        if !is_position(count, position) {
            return Err(CodeFault::Bad);
        }
        Ok((position, rest))
    }
}

/// Reads at most 1,023 positions after their count.
fn read_few(alloc: Global, bytes: &[u8]) -> Result<(List<u32>, &[u8]), CodeFault>
    ensures { Reads result (counted_at small_at most_on_path (position_at most_outcomes) bytes.now) }
{
    let (count, rest) = read_u32(bytes)?;
    if count > MOST_ON_PATH {
        return Err(CodeFault::Bad);
    }
    read_items(alloc, MOST_OUTCOMES as usize, count, rest)
}

/// Whether a position is none of some others.
fn is_apart(first: u32, others: &[u32]) -> bool
    ensures { result ≡ list_all (λ other. not (nat_eq first other)) others.now }
{
    others.iter().all(|other| first != *other)
}

/// Whether no two of some positions are equal.
fn are_apart(positions: &[u32]) -> bool
    ensures { result ≡ are_apart positions.now }
{
    let mut rest = positions;
    while let [first, others @ ..] = rest {
        if !is_apart(*first, others) {
            return false;
        }
        rest = others;
    }
    true
}

/// Whether there are positions, no two of them equal.
fn is_way(positions: &[u32]) -> bool
    ensures { result ≡ is_way positions.now }
{
    !positions.is_empty() && are_apart(positions)
}

/// Reads the path of a cycle: from 1 to 1,023 positions, no two of them equal.
pub fn read_path(alloc: Global, bytes: &[u8]) -> Result<(List<u32>, &[u8]), CodeFault>
    ensures { Reads result (path_at bytes.now) }
{
    let (path, rest) = read_few(alloc, bytes)?;
    if !is_way(path.as_slice()) {
        return Err(CodeFault::Bad);
    }
    Ok((path, rest))
}

/// Writes positions at the end.
fn push_positions(out: &mut Vec<u8>, order: &[u32]) -> Result<(), NoMemory>
    ensures { OnOk result (out.new.items ≡ out.old.items ++ flat_map small_code order.now) }
{
    for pos in order {
        put_u32(out, *pos)?;
    }
    Ok(())
}

/// Writes positions at the end, after their count. There are fewer than 2^32.
pub fn push_order(out: &mut Vec<u8>, order: &[u32]) -> Result<(), NoMemory>
    requires { length order.now < 2 ^ 32 }
    ensures { OnOk result (out.new.items ≡ out.old.items ++ counted small_code small_code order.now) }
{
    put_u32(out, order.len() as u32)?;
    push_positions(out, order)
}
