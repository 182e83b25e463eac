//! 1,024 positions, each with an edge to the next one, or to the one before: the order goes along the edges.

use crate::building::add;
use rel_base::NoMemory;
use rw_graph::EdgeSet;
use serial_order::{check_order, order};
use std::alloc::Global;
use std::test::Fail;

// Positions 1 to 1,024, each after the first with an edge from the one before it, or to it.
fn chain(alloc: Global, back: bool) -> Result<EdgeSet, NoMemory> {
    let mut set = EdgeSet::new(alloc);
    add(&mut set, 1, &[], &[])?;
    for pos in 2..1025 {
        if back {
            add(&mut set, pos, &[pos - 1], &[])?;
        } else {
            add(&mut set, pos, &[], &[pos - 1])?;
        }
    }
    Ok(set)
}

// Whether a list goes from 1 up to 1,024.
fn goes_up(list: &[u32]) -> bool {
    for (at, pos) in list.iter().enumerate() {
        if *pos as usize != at + 1 {
            return false;
        }
    }
    list.len() == 1024
}

// Whether a list goes from 1,024 down to 1.
fn goes_down(list: &[u32]) -> bool {
    for (at, pos) in list.iter().enumerate() {
        if *pos as usize + at != 1024 {
            return false;
        }
    }
    list.len() == 1024
}

#[test]
fn a_chain_of_edges_to_the_next_is_ordered_up(rt: HostRuntime) -> Result<(), Fail> {
    let set = chain(rt.alloc(), false)?;
    let list = order(rt.alloc(), &set)?;
    assert!(rt; goes_up(list.as_slice()));
    assert!(rt; check_order(&set, &list));
    Ok(())
}

#[test]
fn a_chain_of_edges_to_the_one_before_is_ordered_down(rt: HostRuntime) -> Result<(), Fail> {
    let set = chain(rt.alloc(), true)?;
    let list = order(rt.alloc(), &set)?;
    assert!(rt; goes_down(list.as_slice()));
    assert!(rt; check_order(&set, &list));
    Ok(())
}
