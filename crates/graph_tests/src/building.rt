//! Edge sets from lists of positions.

ghost use Rattle.std.specs.Prelude.{◌≡◌, ◌≤◌, ◌<◌, All, nat_lt};
ghost use Rattle.std.specs.List.{list_all};
ghost use Rattle.rw_graph.specs.Graph.{positions_of};
ghost use Rattle.rw_graph.specs.Held.{holds};
ghost use Rattle.rw_graph.specs.Sets.{AreAmong};

use rel_base::NoMemory;
use rw_graph::{Bits, EdgeSet, Edges};

// Puts a position in, where it is one of a set.
fn put(set: &EdgeSet, bits: &mut Bits, pos: u32)
    requires { AreAmong (positions_of set.now) (holds bits.old) }
    ensures { AreAmong (positions_of set.now) (holds bits.new) }
{
    if pos == 0 || pos > 1024 {
        return;
    }
    if set.out_row(pos).is_some() {
        bits.add(pos);
    }
}

// The positions of a list that are of a set.
fn bits_of(set: &EdgeSet, list: &[u32]) -> Bits
    ensures { AreAmong (positions_of set.now) (holds result) }
{
    let mut bits = Bits::new();
    for pos in list {
        put(set, &mut bits, *pos);
    }
    bits
}

/// The edges to the positions of a list and from those of another, where these are of a set.
pub fn edges_of(set: &EdgeSet, out: &[u32], into: &[u32]) -> Edges
    ensures out { AreAmong (positions_of set.now) (holds result.out) }
    ensures into { AreAmong (positions_of set.now) (holds result.into) }
{
    Edges {
        out: bits_of(set, out),
        into: bits_of(set, into),
    }
}

// Whether a position stands above each of a list.
fn is_above(positions: &[u32], pos: u32) -> bool
    ensures { result ≡ list_all (λ other. nat_lt other pos) positions.now }
{
    for other in positions {
        if *other >= pos {
            return false;
        }
    }
    true
}

/// Adds a position above those of a set, with its edges to the positions of a list and from those of another.
pub fn add(set: &mut EdgeSet, pos: u32, out: &[u32], into: &[u32]) -> Result<(), NoMemory>
    requires counts { 1 ≤ pos }
    requires upto { pos ≤ 1024 }
{
    if is_above(set.positions(), pos) {
        let edges = edges_of(set, out, into);
        set.add(pos, &edges)?;
    }
    Ok(())
}
