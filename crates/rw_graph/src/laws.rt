//! Laws of edges and dangers by position, each the contract of a function that does nothing. They tie a set of edges to the
//! committed transactions whose edges it keeps.

ghost use Rattle.rw_graph.specs.Laws.{DangerByPosition, EdgesAreAmong, EdgesGrow};

/// The edges of a transaction are to and from positions of committed ones.
pub fn edges_are_among()
    ensures { EdgesAreAmong }
{}

/// The danger by positions is the danger of the transaction.
pub fn danger_by_position()
    ensures { DangerByPosition }
{}

/// When one more transaction commits, its own edges are all that is new.
pub fn edges_grow()
    ensures { EdgesGrow }
{}
