//! The danger of a transaction, by its edges to those that committed before it in its block.

ghost use Rattle.std.specs.Prelude.{◌≡◌, find};
ghost use Rattle.node_model.specs.Danger.{danger_among, first_pair, is_form_one, is_form_two};
ghost use Rattle.rw_graph.specs.Graph.{has_edge, positions_of};
ghost use Rattle.rw_graph.specs.Held.{holds};
ghost use Rattle.rw_graph.specs.Sets.{AreAmong};

use crate::edge_set::EdgeSet;
use crate::edges::Edges;
use node_model::Danger;

// The positions Z and X of form one. The least Z decides: where no X stands at or after it, none does so after a later Z.
fn form_one(set: &EdgeSet, edges: &Edges) -> Option<(u32, u32)>
    requires out { AreAmong (positions_of set.now) (holds edges.now.out) }
    requires into { AreAmong (positions_of set.now) (holds edges.now.into) }
    ensures { result ≡ first_pair (is_form_one (λ pos. pos) (has_edge set.now) (holds edges.now.out) (holds edges.now.into)) (positions_of set.now) }
{
    let z = edges.out.least_from(0)?;
    let x = edges.into.least_from(z)?;
    Some((z, x))
}

// The position Z of form two for a position Y: the least to which Y has an edge, if it stands before Y.
fn before(set: &EdgeSet, edges: &Edges, y: u32) -> Option<u32>
    ensures { result ≡ find (is_form_two (λ pos. pos) (has_edge set.now) (holds edges.now.out) (holds edges.now.into) y) (positions_of set.now) }
{
    if !edges.out.has(y) {
        return None;
    }
    let z = set.least_to(y)?;
    if z < y { Some(z) } else { None }
}

// The positions Y and Z of form two: each Y to which there is an edge is asked, from the least on.
fn form_two(set: &EdgeSet, edges: &Edges) -> Option<(u32, u32)>
    requires { AreAmong (positions_of set.now) (holds edges.now.out) }
    ensures { result ≡ first_pair (is_form_two (λ pos. pos) (has_edge set.now) (holds edges.now.out) (holds edges.now.into)) (positions_of set.now) }
{
    let mut last = 0;
    while let Some(y) = edges.out.least_above(last) {
        if let Some(z) = before(set, edges, y) {
            return Some((y, z));
        }
        last = y;
    }
    None
}

/// The danger of a transaction with some edges to and from the positions of a set: form one with the least Z and then the least X,
/// and where it fails form two with the least Y and then the least Z. `None` exactly where both fail. Takes no memory.
pub fn danger(set: &EdgeSet, edges: &Edges) -> Option<Danger>
    requires out { AreAmong (positions_of set.now) (holds edges.now.out) }
    requires into { AreAmong (positions_of set.now) (holds edges.now.into) }
    ensures { result ≡ danger_among (λ pos. pos) (has_edge set.now) (holds edges.now.out) (holds edges.now.into) (positions_of set.now) }
{
    if let Some((z, x)) = form_one(set, edges) {
        return Some(Danger::One { z, x });
    }
    match form_two(set, edges) {
        Some((y, z)) => Some(Danger::Two { y, z }),
        None => None,
    }
}
