//! The majority of peers at a height, and where they differ.

ghost use Rattle.checkpoint.specs.Majority.{are_apart, compared, differs, digest_at, digests_at, first_apart, is_majority, is_other, is_same, longest, majority};
ghost use Rattle.std.specs.List.{count_by, list_any};
ghost use Rattle.std.specs.Option.{option_and_then, option_copied};
ghost use Rattle.std.specs.Prelude.{IfOk, None, Some, cond, length, not, slice_get, ◌≡◌, ◌≤◌};
ghost use Rattle.std.specs.Str.{bytes_eq};

use rel_base::{List, NoMemory};
use std::alloc::Global;

/// Where peers differ.
#[derive(Drop)]
pub struct Compared {
    /// For each peer the least height that it has where there is a majority and its digest is another.
    pub peers: List<Option<u64>>,
    /// The least height at which two peers have different digests.
    pub first: Option<u64>,
}

/// The digest that a peer has at a height, if it has that height.
fn digest_at(peer: &List<[u8; 32]>, height: u64) -> Option<&[u8; 32]>
    ensures { option_copied result ≡ digest_at peer.now height }
{
    if height == 0 {
        return None;
    }
    peer.get(height as usize - 1)
}

/// Whether a peer has this digest at a height.
fn has_digest(peer: &List<[u8; 32]>, height: u64, digest: &[u8; 32]) -> bool
    ensures { result ≡ is_same digest.now (digest_at peer.now height) }
{
    match digest_at(peer, height) {
        Some(own) => digest.as_slice() == own.as_slice(),
        None => false,
    }
}

/// How many peers have this digest at a height.
fn holders(peers: &[List<[u8; 32]>], height: u64, digest: &[u8; 32]) -> usize
    ensures count { result ≡ count_by (λ peer. is_same digest.now (digest_at peer height)) peers.now }
    ensures few { result ≤ length peers.now }
{
    let mut held = 0;
    for peer in peers {
        if has_digest(peer, height, digest) {
            held += 1;
        }
    }
    held
}

/// Whether more than half of all peers have this digest at a height.
fn is_majority(peers: &[List<[u8; 32]>], height: u64, digest: &[u8; 32]) -> bool
    ensures { result ≡ is_majority peers.now height digest.now }
{
    holders(peers, height, digest) > peers.len() / 2
}

/// The digest that a peer has at a height, if more than half of all peers have it there.
fn majority_of<'a>(
    peers: &[List<[u8; 32]>],
    height: u64,
    peer: &'a List<[u8; 32]>,
) -> Option<&'a [u8; 32]>
    ensures { option_copied result ≡ option_and_then (λ digest. cond (is_majority peers.now height digest) (Some digest) None) (digest_at peer.now height) }
{
    let digest = digest_at(peer, height)?;
    if is_majority(peers, height, digest) {
        Some(digest)
    } else {
        None
    }
}

/// The digest that more than half of all peers have at a height, from 1, if there is one. A peer without that height counts among all.
pub fn majority(peers: &List<List<[u8; 32]>>, height: u64) -> Option<&[u8; 32]>
    ensures { option_copied result ≡ majority peers.now height }
{
    for peer in peers.as_slice() {
        if let Some(digest) = majority_of(peers.as_slice(), height, peer) {
            return Some(digest);
        }
    }
    None
}

/// Whether a peer has another digest than the majority at a height.
fn is_other(peers: &List<List<[u8; 32]>>, peer: &List<[u8; 32]>, height: u64) -> bool
    ensures { result ≡ is_other (majority peers.now height) (digest_at peer.now height) }
{
    match (majority(peers, height), digest_at(peer, height)) {
        (Some(most), Some(own)) => most.as_slice() != own.as_slice(),
        _ => false,
    }
}

/// The least height at which there is a majority and a peer's digest is another.
fn differs(peers: &List<List<[u8; 32]>>, peer: &List<[u8; 32]>) -> Option<u64>
    ensures { result ≡ differs peers.now peer.now }
{
    for at in 0..peer.len() {
        let height = at as u64 + 1;
        if is_other(peers, peer, height) {
            return Some(height);
        }
    }
    None
}

/// The first digest that a peer has at a height.
fn first_digest(peers: &[List<[u8; 32]>], height: u64) -> Option<&[u8; 32]>
    ensures { option_copied result ≡ slice_get (digests_at peers.now height) 0 }
{
    for peer in peers {
        if let Some(digest) = digest_at(peer, height) {
            return Some(digest);
        }
    }
    None
}

/// Whether a peer has another digest than this one at a height.
fn has_other(peer: &List<[u8; 32]>, height: u64, digest: &[u8; 32]) -> bool
    ensures { result ≡ is_other (Some digest.now) (digest_at peer.now height) }
{
    match digest_at(peer, height) {
        Some(own) => digest.as_slice() != own.as_slice(),
        None => false,
    }
}

/// Whether some peer has another digest than this one at a height.
fn has_others(peers: &[List<[u8; 32]>], height: u64, digest: &[u8; 32]) -> bool
    ensures { result ≡ list_any (λ own. not (bytes_eq digest.now own)) (digests_at peers.now height) }
{
    for peer in peers {
        if has_other(peer, height, digest) {
            return true;
        }
    }
    false
}

/// Whether two peers have different digests at a height: one has another than the first of them.
fn are_apart(peers: &[List<[u8; 32]>], height: u64) -> bool
    ensures { result ≡ are_apart (digests_at peers.now height) }
{
    match first_digest(peers, height) {
        Some(digest) => has_others(peers, height, digest),
        None => false,
    }
}

/// The greatest number of digests that a peer has.
fn longest(peers: &[List<[u8; 32]>]) -> usize
    ensures { result ≡ longest peers.now }
{
    let mut most = 0;
    for peer in peers {
        most = most.max(peer.len());
    }
    most
}

/// The least height at which two peers have different digests.
fn first_apart(peers: &[List<[u8; 32]>]) -> Option<u64>
    ensures { result ≡ first_apart peers.now }
{
    for at in 0..longest(peers) {
        let height = at as u64 + 1;
        if are_apart(peers, height) {
            return Some(height);
        }
    }
    None
}

/// Where each peer differs from the majority, and where peers first differ from each other. It fails only where memory runs out.
pub fn compare(alloc: Global, peers: &List<List<[u8; 32]>>) -> Result<Compared, NoMemory>
    ensures { IfOk result (λ found. found ≡ compared peers.now) }
{
    let mut heights = List::new(alloc);
    for peer in peers.as_slice() {
        heights.push(differs(peers, peer))?;
    }
    let first = first_apart(peers.as_slice());
    Ok(Compared {
        peers: heights,
        first,
    })
}
