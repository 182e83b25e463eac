//! The serial order, by counting the edges that come to each position from those that are left.

ghost use Rattle.std.specs.Prelude.{ℕ, Bool, IfOk, IfSome, List, MatchOption, None, Some, false, map, reverse, vec_len, ◌<◌, ◌≡◌};
ghost use Rattle.node_model.specs.Order.{IsSerialOrder, order, take_first};
ghost use Rattle.rw_graph.specs.Graph.{has_edge, positions_of};
ghost use Rattle.serial_order.specs.Cycles.{HasNoCycle};
ghost use Rattle.serial_order.specs.Counts.{IsTakenAt, predecessors, entries, has_none, lowered};

use crate::left::Left;
use rel_base::{List, NoMemory};
use rw_graph::EdgeSet;
use std::alloc::Global;

// Whether an edge leads from a position.
fn is_left(set: &EdgeSet, from: u32) -> bool
    ensures { result ≡ false → (to : ℕ) → has_edge set.now from to ≡ false }
{
    set.least_to(from).is_some()
}

// How many edges come to a position.
fn count_to(set: &EdgeSet, to: u32) -> usize
    ensures { result ≡ predecessors (has_edge set.now) (positions_of set.now) to }
{
    match set.into_row(to) {
        None => 0,
        Some(into) => into.count(),
    }
}

// Each position, with how many edges come to it. The earliest stands last, so that little moves where it is taken out.
fn counted(alloc: Global, set: &EdgeSet) -> Result<Vec<Left>, NoMemory>
    ensures { IfOk result (λ left. reverse left.items ≡ entries (has_edge set.now) (positions_of set.now)) }
{
    let mut left = Vec::new(alloc);
    for to in set.positions() {
        left.push(Left {
            pos: *to,
            predecessors: count_to(set, *to),
        })?;
    }
    left.reverse();
    Ok(left)
}

// What is left of an entry when a position is placed.
fn lowered_entry(set: &EdgeSet, from: u32, entry: Left) -> Left
    ensures { result ≡ lowered (has_edge set.now) from entry }
{
    if set.has(from, entry.pos) {
        Left {
            pos: entry.pos,
            predecessors: entry.predecessors.saturating_sub(1),
        }
    } else {
        entry
    }
}

// One edge less for each position to which a position that is placed has an edge.
fn lower_each(set: &EdgeSet, from: u32, left: &mut Vec<Left>)
    ensures items { left.new.items ≡ map (lowered (has_edge set.now) from) left.old.items }
    ensures len { vec_len left.new ≡ vec_len left.old }
{
    for entry in left.iter_mut() {
        *entry = lowered_entry(set, from, *entry);
    }
}

// The same. Most positions have no edge, and then nothing is to be done.
fn lower(set: &EdgeSet, from: u32, left: &mut Vec<Left>)
    ensures items { left.new.items ≡ map (lowered (has_edge set.now) from) left.old.items }
    ensures len { vec_len left.new ≡ vec_len left.old }
{
    if is_left(set, from) {
        lower_each(set, from, left);
    }
}

// The place of the last entry to which no edge comes.
fn last_free(left: &[Left]) -> Option<usize>
    ensures { MatchOption result (take_first has_none (reverse left.now) ≡ None) (λ index. IsTakenAt has_none left.now index) }
{
    for index in (0..left.len()).rev() {
        if left[index].predecessors == 0 {
            return Some(index);
        }
    }
    None
}

// Takes out the earliest position to which no edge comes.
fn take_free(left: &mut Vec<Left>) -> Option<u32>
    ensures taken { MatchOption (take_first has_none (reverse left.old.items)) ((result ≡ None) × (left.new ≡ left.old))
        (λ taken. (result ≡ Some taken.0.pos) × (reverse left.new.items ≡ taken.1)) }
    ensures len { IfSome result (λ _. vec_len left.new < vec_len left.old) }
{
    match last_free(left.as_slice()) {
        None => None,
        Some(index) => Some(left.remove(index).pos),
    }
}

// The positions in serial order, where there may be edges.
fn placed(alloc: Global, set: &EdgeSet) -> Result<List<u32>, NoMemory>
    ensures { IfOk result (λ list. list ≡ order (has_edge set.now) (positions_of set.now)) }
{
    let mut left = counted(alloc, set)?;
    let mut list = List::new(alloc);
    while let Some(from) = take_free(&mut left) {
        lower(set, from, &mut left);
        list.push(from)?;
    }
    Ok(list)
}

// The positions as they stand in the block.
fn as_they_stand(alloc: Global, set: &EdgeSet) -> Result<List<u32>, NoMemory>
    ensures { IfOk result (λ list. list ≡ positions_of set.now) }
{
    let positions = Vec::from_slice(alloc, set.positions())?;
    Ok(List::from_vec(positions))
}

/// The positions of a set in serial order: again and again the earliest to which no edge comes from one that is left. Where the
/// edges have no cycle, each position is placed once, and no edge leads from a later one to an earlier one.
pub fn order(alloc: Global, set: &EdgeSet) -> Result<List<u32>, NoMemory>
    ensures order { IfOk result (λ list. list ≡ order (has_edge set.now) (positions_of set.now)) }
    ensures serial { IfOk result (λ list. HasNoCycle (has_edge set.now) (positions_of set.now) → IsSerialOrder (has_edge set.now) (positions_of set.now) list) }
{
    // without an edge each position may stand where it stands in the block
    if set.is_bare() {
        as_they_stand(alloc, set)
    } else {
        placed(alloc, set)
    }
}
