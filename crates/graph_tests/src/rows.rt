//! The rows of a set whose edges cross the words of the bits: 65 -> 64, 1024 -> 65 and 64 -> 1024.

use crate::building::add;
use rel_base::NoMemory;
use rw_graph::{Bits, EdgeSet};
use std::alloc::Global;
use std::test::Fail;

// Whether some bits hold one position alone.
fn is_just(bits: Option<&Bits>, pos: u32) -> bool {
    let Some(bits) = bits else {
        return false;
    };
    for other in 0..1026 {
        if bits.has(other) != (other == pos) {
            return false;
        }
    }
    true
}

fn three_edges(alloc: Global) -> Result<EdgeSet, NoMemory> {
    let mut set = EdgeSet::new(alloc);
    add(&mut set, 64, &[], &[])?;
    add(&mut set, 65, &[64], &[])?;
    add(&mut set, 1024, &[65], &[64])?;
    Ok(set)
}

#[test]
fn rows_have_the_edges_that_were_added(rt: HostRuntime) -> Result<(), Fail> {
    let set = three_edges(rt.alloc())?;
    assert!(rt; set.positions() == [64, 65, 1024].as_slice());
    assert!(rt; is_just(set.out_row(64), 1024));
    assert!(rt; is_just(set.into_row(64), 65));
    assert!(rt; is_just(set.out_row(65), 64));
    assert!(rt; is_just(set.into_row(65), 1024));
    assert!(rt; is_just(set.out_row(1024), 65));
    assert!(rt; is_just(set.into_row(1024), 64));
    Ok(())
}

#[test]
fn other_positions_have_no_row(rt: HostRuntime) -> Result<(), Fail> {
    let set = three_edges(rt.alloc())?;
    for pos in [0, 1, 63, 66, 1023, 1025] {
        assert!(rt; set.out_row(pos).is_none() && set.into_row(pos).is_none());
    }
    Ok(())
}
