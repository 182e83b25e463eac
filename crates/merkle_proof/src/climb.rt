//! What a path of sibling hashes gives.

ghost use Rattle.merkle_proof.specs.Shape.{shape, turns};
ghost use Rattle.merkle_proof.specs.Tree.{climb};
ghost use Rattle.sha2.specs.Sha256.{sha256};
ghost use Rattle.std.specs.Prelude.{[], length, reverse, ◌∷◌, ◌++◌, ◌-◌, ◌<◌, ◌^◌, ◌≡◌, ◌≤◌};

use crate::hashes::node;
use crate::root::half_of;

/// How many hashes stand beside the way to an index, from 0, in a tree of so many leaves.
pub fn way_len(level: u32, count: usize, index: usize) -> usize
    requires level { level ≤ 32 }
    requires within { index < count }
    requires count { count ≤ 2 ^ level }
    ensures way { result ≡ length (turns (shape level count) index) }
    ensures short { result ≤ level }
{
    if level == 0 {
        return 0;
    }
    let half = half_of(level);
    if count <= half {
        way_len(level - 1, count, index)
    } else if index < half {
        1 + way_len(level - 1, half, index)
    } else {
        1 + way_len(level - 1, count - half, index - half)
    }
}

/// The hash beside the highest part of a way, and those before it.
pub fn split_last(path: &[[u8; 32]]) -> (&[[u8; 32]], &[u8; 32])
    requires { 1 ≤ length path.now }
    ensures { path.now ≡ result.0.now ++ result.1.now ∷ [] }
{
    let (rest, last) = path.split_at(path.len() - 1);
    (rest, &last[0])
}

/// The hash at the root that a leaf's hash gives with the hashes beside its way, the lowest first.
pub fn climb(level: u32, count: usize, index: usize, path: &[[u8; 32]], leaf: [u8; 32]) -> [u8; 32]
    requires level { level ≤ 32 }
    requires within { index < count }
    requires count { count ≤ 2 ^ level }
    requires long { length path.now ≡ length (turns (shape level count) index) }
    ensures { result ≡ climb sha256 (turns (shape level count) index) (reverse path.now) leaf }
{
    if level == 0 {
        return leaf;
    }
    let half = half_of(level);
    if count <= half {
        return climb(level - 1, count, index, path, leaf);
    }
    let (rest, last) = split_last(path);
    if index < half {
        let below = climb(level - 1, half, index, rest, leaf);
        return node(&below, last);
    }
    let below = climb(level - 1, count - half, index - half, rest, leaf);
    node(last, &below)
}
