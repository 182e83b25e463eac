//! Whether a list is a serial order.

ghost use Rattle.std.specs.Prelude.{◌≡◌, true};
ghost use Rattle.std.specs.Bool.{nat_eq};
ghost use Rattle.std.specs.List.{list_all, list_any};
ghost use Rattle.node_model.specs.Order.{IsSerialOrder};
ghost use Rattle.rw_graph.specs.Graph.{has_edge, positions_of};
ghost use Rattle.serial_order.specs.Checking.{all_follow, is_serial, may_follow};

use rel_base::List;
use rw_graph::EdgeSet;

// Whether a position may stand after another.
fn may_come_after(set: &EdgeSet, earlier: u32, later: u32) -> bool
    ensures { result ≡ may_follow (has_edge set.now) earlier later }
{
    earlier != later && !set.has(later, earlier)
}

// Whether each position of a list may stand after another.
fn all_come_after(set: &EdgeSet, earlier: u32, list: &[u32]) -> bool
    ensures { result ≡ list_all (may_follow (has_edge set.now) earlier) list.now }
{
    for later in list {
        if !may_come_after(set, earlier, *later) {
            return false;
        }
    }
    true
}

// Whether each position of a list may stand after each one before it.
fn is_forward(set: &EdgeSet, list: &[u32]) -> bool
    ensures { result ≡ all_follow (has_edge set.now) list.now }
{
    for index in 0..list.len() {
        if !all_come_after(set, list[index], &list[index + 1..]) {
            return false;
        }
    }
    true
}

// Whether a position is in a list.
fn is_in(positions: &[u32], pos: u32) -> bool
    ensures { result ≡ list_any (nat_eq pos) positions.now }
{
    for other in positions {
        if pos == *other {
            return true;
        }
    }
    false
}

// Whether each position of a list is in another.
fn are_in(positions: &[u32], list: &[u32]) -> bool
    ensures { result ≡ list_all (λ pos. list_any (nat_eq pos) positions.now) list.now }
{
    for pos in list {
        if !is_in(positions, *pos) {
            return false;
        }
    }
    true
}

fn is_serial(set: &EdgeSet, list: &List<u32>) -> bool
    ensures { result ≡ is_serial (has_edge set.now) (positions_of set.now) list.now }
{
    let positions = set.positions();
    let items = list.as_slice();
    positions.len() == items.len() && (are_in(positions, items) && is_forward(set, items))
}

/// Whether a list has each position of a set once, and no edge of the set leads from a later one to an earlier one.
pub fn check_order(set: &EdgeSet, list: &List<u32>) -> bool
    ensures sound { result ≡ true → IsSerialOrder (has_edge set.now) (positions_of set.now) list.now }
    ensures complete { IsSerialOrder (has_edge set.now) (positions_of set.now) list.now → result ≡ true }
{
    is_serial(set, list)
}
