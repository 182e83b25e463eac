//! The cycle that a transaction would close, by its edges to those that committed before it in its block.

ghost use Rattle.std.specs.Prelude.{ℕ, ◌≡◌, ◌<◌, ◌≤◌, ◌&&◌, ◌||◌, IfOk, MatchOption, None, false, length, not, true};
ghost use Rattle.std.specs.List.{list_any};
ghost use Rattle.node_model.specs.Paths.{least_path};
ghost use Rattle.rw_graph.specs.Graph.{has_edge, positions_of};
ghost use Rattle.rw_graph.specs.Held.{holds};
ghost use Rattle.rw_graph.specs.Levels.{first_way};
ghost use Rattle.rw_graph.specs.Sets.{AreAmong, IsLeastFrom};
ghost use Rattle.rw_graph.specs.Table.{IsTable, any_below};
ghost use Rattle.proc_syntax.specs.Limits.{most_transactions};

use crate::bits::Bits;
use crate::edge_set::EdgeSet;
use crate::edges::Edges;
use rel_base::{List, NoMemory};
use std::alloc::Global;

// The positions to which a position has an edge.
fn out_of(set: &EdgeSet, pos: u32) -> Bits
    ensures { (other : ℕ) → holds result other ≡ has_edge set.now pos other }
{
    match set.out_row(pos) {
        None => Bits::new(),
        Some(out) => *out,
    }
}

// Puts in the positions with an edge to a position.
fn add_into(set: &EdgeSet, pos: u32, sources: &mut Bits)
    ensures { (other : ℕ) → holds sources.new other ≡ (has_edge set.now other pos || holds sources.old other) }
{
    if let Some(into) = set.into_row(pos) {
        sources.add_all(into);
    }
}

// Puts in the positions with an edge to the least of a level, from a position on. Tells from where to go on, where those with edges to the
// positions before were put in already.
fn add_sources(set: &EdgeSet, level: &Bits, from: u32, sources: &mut Bits) -> u32
    requires upto { from ≤ most_transactions }
    requires so_far { (pos : ℕ) → holds sources.old pos ≡ any_below (λ to. has_edge set.now pos to && holds level.now to) from }
    ensures so_far { (pos : ℕ) → holds sources.new pos ≡ any_below (λ to. has_edge set.now pos to && holds level.now to) result }
    ensures further { from < result }
    ensures upto { result ≤ 1025 }
{
    match level.least_from(from) {
        None => 1025,
        Some(to) => {
            add_into(set, to, sources);
            to + 1
        }
    }
}

// The positions with an edge to one of a level.
fn sources_of(set: &EdgeSet, level: &Bits) -> Bits
    ensures { (pos : ℕ) → holds result pos ≡ list_any (λ to. has_edge set.now pos to && holds level.now to) (positions_of set.now) }
{
    let mut sources = Bits::new();
    let mut from = 0;
    while from <= 1024 {
        from = add_sources(set, level, from, &mut sources);
    }
    sources
}

// Whether two sets have a position in common.
fn meet(level: &Bits, out: &Bits) -> bool
    ensures some { result ≡ true → (pos : ℕ) × ((holds out.now pos && holds level.now pos) ≡ true) }
    ensures none { result ≡ false → (pos : ℕ) → (holds out.now pos && holds level.now pos) ≡ false }
{
    out.both(level).least_from(0).is_some()
}

// Whether a set holds no position.
fn is_empty(positions: &Bits) -> bool
    ensures { result ≡ true → (pos : ℕ) → holds positions.now pos ≡ false }
{
    positions.least_from(0).is_none()
}

// The positions with an edge to one of a level, but for those that were seen before.
fn next_level(set: &EdgeSet, level: &Bits, seen: &Bits) -> Bits
    ensures { (pos : ℕ) → holds result pos ≡ (list_any (λ to. has_edge set.now pos to && holds level.now to) (positions_of set.now) && not (holds seen.now pos)) }
{
    sources_of(set, level).without(seen)
}

// For one, two and more transactions on the way, the positions from which T is reached over at most as many, until there is one to which T
// has an edge. None where that never comes.
fn table_of(alloc: Global, set: &EdgeSet, edges: &Edges) -> Result<Option<Vec<Bits>>, NoMemory>
    requires { AreAmong (positions_of set.now) (holds edges.now.out) }
    ensures { IfOk result (λ found. MatchOption found
        (least_path (λ pos. pos) (has_edge set.now) (holds edges.now.out) (holds edges.now.into) (positions_of set.now) ≡ None)
        (λ table. IsTable (has_edge set.now) (holds edges.now.into) (positions_of set.now) table.items
        × (first_way (has_edge set.now) (holds edges.now.into) (positions_of set.now) (length table.items) (holds edges.now.out)
        ≡ least_path (λ pos. pos) (has_edge set.now) (holds edges.now.out) (holds edges.now.into) (positions_of set.now)))) }
{
    let mut table = Vec::new(alloc);
    let mut seen = Bits::new();
    let mut level = edges.into;
    for _round in 0..set.positions().len() {
        if is_empty(&level) {
            return Ok(None);
        }
        seen.add_all(&level);
        table.push(seen)?;
        if meet(&level, &edges.out) {
            return Ok(Some(table));
        }
        level = next_level(set, &level, &seen);
    }
    Ok(None)
}

// The least position that two sets have in common.
fn first_in_both(next: &Bits, within: &Bits) -> Option<u32>
    ensures { IsLeastFrom (λ pos. holds next.now pos && holds within.now pos) 0 result }
{
    next.both(within).least_from(0)
}

// Down the table: the least position to which T has an edge and from which T is reached over as many as the table tells, then the least to
// which that one has an edge and from which T is reached over one less, and so on.
fn way_down(
    alloc: Global,
    set: &EdgeSet,
    edges: &Edges,
    table: Vec<Bits>,
) -> Result<Option<List<u32>>, NoMemory>
    requires out { AreAmong (positions_of set.now) (holds edges.now.out) }
    requires table { IsTable (has_edge set.now) (holds edges.now.into) (positions_of set.now) table.items }
    ensures { IfOk result (λ found. found ≡ first_way (has_edge set.now) (holds edges.now.into) (positions_of set.now) (length table.items) (holds edges.now.out)) }
{
    let mut table = table;
    let mut path = List::new(alloc);
    let mut next = edges.out;
    while let Some(within) = table.pop() {
        match first_in_both(&next, &within) {
            None => return Ok(None),
            Some(pos) => {
                path.push(pos)?;
                next = out_of(set, pos);
            }
        }
    }
    Ok(Some(path))
}

/// The cycle that a transaction with some edges to and from the positions of a set would close: the path from it back to it, of
/// the fewest positions, and of such the least by position. `None` exactly where there is no path.
pub fn cycle(alloc: Global, set: &EdgeSet, edges: &Edges) -> Result<Option<List<u32>>, NoMemory>
    requires out { AreAmong (positions_of set.now) (holds edges.now.out) }
    requires into { AreAmong (positions_of set.now) (holds edges.now.into) }
    ensures { IfOk result (λ found. found ≡ least_path (λ pos. pos) (has_edge set.now) (holds edges.now.out) (holds edges.now.into) (positions_of set.now)) }
{
    // most transactions have no edge to another, and then nothing is to be looked for
    if is_empty(&edges.out) {
        return Ok(None);
    }
    match table_of(alloc, set, edges)? {
        None => Ok(None),
        Some(table) => way_down(alloc, set, edges, table),
    }
}
