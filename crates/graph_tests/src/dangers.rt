//! The danger of each transaction in each set of edges that lead from a later to an earlier of three positions, against a look at each
//! pair of positions.

use crate::building::{add, edges_of};
use node_model::Danger;
use rel_base::NoMemory;
use rw_graph::{EdgeSet, danger};
use std::alloc::Global;
use std::test::Fail;

// The sets of three positions.
const SUBSETS: [&[u32]; 8] = [&[], &[1], &[2], &[1, 2], &[3], &[1, 3], &[2, 3], &[1, 2, 3]];

// The pairs of three positions, the least first.
const PAIRS: [(u32, u32); 9] = [
    (1, 1),
    (1, 2),
    (1, 3),
    (2, 1),
    (2, 2),
    (2, 3),
    (3, 1),
    (3, 2),
    (3, 3),
];

// The positions to which position 2 has an edge, those to which position 3 has one, and those of a transaction T out and in.
#[derive(Clone, Copy)]
struct Graph {
    from_two: &'static [u32],
    from_three: &'static [u32],
    out: &'static [u32],
    into: &'static [u32],
}

impl Graph {
    fn has_edge(&self, from: u32, to: u32) -> bool {
        match from {
            2 => self.from_two.contains(&to),
            3 => self.from_three.contains(&to),
            _ => false,
        }
    }

    // X has an edge to T, and T to Z, and Z does not stand after X.
    fn is_form_one(&self, z: u32, x: u32) -> bool {
        self.out.contains(&z) && self.into.contains(&x) && z <= x
    }

    // T has an edge to Y, and Y to Z, and Z stands before Y.
    fn is_form_two(&self, y: u32, z: u32) -> bool {
        self.out.contains(&y) && self.has_edge(y, z) && z < y
    }

    fn least_of_form_one(&self) -> Option<(u32, u32)> {
        for (z, x) in PAIRS {
            if self.is_form_one(z, x) {
                return Some((z, x));
            }
        }
        None
    }

    fn least_of_form_two(&self) -> Option<(u32, u32)> {
        for (y, z) in PAIRS {
            if self.is_form_two(y, z) {
                return Some((y, z));
            }
        }
        None
    }

    fn edge_set(&self, alloc: Global) -> Result<EdgeSet, NoMemory> {
        let mut set = EdgeSet::new(alloc);
        add(&mut set, 1, &[], &[])?;
        add(&mut set, 2, self.from_two, &[])?;
        add(&mut set, 3, self.from_three, &[])?;
        Ok(set)
    }

    // Whether the danger of T is the least pair of form one, and where there is none the least of form two.
    fn has_its_danger(&self, alloc: Global) -> Result<bool, NoMemory> {
        let set = self.edge_set(alloc)?;
        let edges = edges_of(&set, self.out, self.into);
        Ok(match danger(&set, &edges) {
            Some(Danger::One { z, x }) => self.least_of_form_one() == Some((z, x)),
            Some(Danger::Two { y, z }) => {
                self.least_of_form_one().is_none() && self.least_of_form_two() == Some((y, z))
            }
            Some(Danger::Cycle { path: _ }) => false,
            None => self.least_of_form_one().is_none() && self.least_of_form_two().is_none(),
        })
    }
}

// The graph of a number below 512: one bit says where position 2 has an edge to, two where position 3 does, and three each which edges
// T has out and in.
fn graph_of(number: usize) -> Graph {
    Graph {
        from_two: SUBSETS[number % 2],
        from_three: SUBSETS[number / 2 % 4],
        out: SUBSETS[number / 8 % 8],
        into: SUBSETS[number / 64 % 8],
    }
}

#[test]
fn each_danger_is_that_of_the_pairs(rt: HostRuntime) -> Result<(), Fail> {
    for number in 0..512 {
        assert!(rt; graph_of(number).has_its_danger(rt.alloc())?);
    }
    Ok(())
}
