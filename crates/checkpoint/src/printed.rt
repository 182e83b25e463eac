//! What the command `compare` prints.

ghost use Rattle.checkpoint.specs.Majority.{compared, majority};
ghost use Rattle.checkpoint.specs.Printed.{comparison, first_text, height_text, majority_text, peer_text, peers_text};
ghost use Rattle.std.specs.Prelude.{IfOk, OnOk, length, ◌++◌, ◌≡◌, ◌≤◌};

use crate::comparing::{Compared, majority};
use hex_digits::hash_digits;
use literals::push_number;
use rel_base::{List, NoMemory};
use std::alloc::Global;

/// Writes a height, or `never`, at the end.
fn push_height(out: &mut Vec<u8>, height: Option<u64>) -> Result<(), NoMemory>
    ensures { OnOk result (out.new.items ≡ out.old.items ++ height_text height) }
{
    match height {
        Some(height) => push_number(out, height),
        None => Ok(out.extend_from_slice(b"never")?),
    }
}

/// Writes the line of a peer at the end, or a part of it.
fn push_peer(
    out: &mut Vec<u8>,
    number: u64,
    peer: &List<[u8; 32]>,
    height: Option<u64>,
) -> Result<(), NoMemory>
    ensures { OnOk result (out.new.items ≡ out.old.items ++ peer_text number peer.now height) }
{
    out.extend_from_slice(b"peer ")?;
    push_number(out, number)?;
    out.extend_from_slice(b" length ")?;
    push_number(out, peer.len() as u64)?;
    out.extend_from_slice(b" differs ")?;
    push_height(out, height)?;
    out.push(b'\n')?;
    Ok(())
}

/// Writes the lines of peers at the end, or a part of them.
fn push_peers(
    out: &mut Vec<u8>,
    peers: &[List<[u8; 32]>],
    heights: &[Option<u64>],
) -> Result<(), NoMemory>
    requires { length heights.now ≡ length peers.now }
    ensures { OnOk result (out.new.items ≡ out.old.items ++ peers_text 1 peers.now heights.now) }
{
    for (at, peer) in peers.iter().enumerate() {
        push_peer(out, at as u64 + 1, peer, heights[at])?;
    }
    Ok(())
}

/// Writes the digest of the majority at a height at the end, or `none`.
fn push_majority(
    out: &mut Vec<u8>,
    peers: &List<List<[u8; 32]>>,
    height: u64,
) -> Result<(), NoMemory>
    ensures { OnOk result (out.new.items ≡ out.old.items ++ majority_text (majority peers.now height)) }
{
    match majority(peers, height) {
        Some(digest) => Ok(out.extend_from_slice(hash_digits(digest).as_slice())?),
        None => Ok(out.extend_from_slice(b"none")?),
    }
}

/// Writes the line of the first height at which two peers have different digests at the end, or a part of it.
fn push_first(
    out: &mut Vec<u8>,
    peers: &List<List<[u8; 32]>>,
    first: Option<u64>,
) -> Result<(), NoMemory>
    ensures { OnOk result (out.new.items ≡ out.old.items ++ first_text peers.now first) }
{
    let Some(height) = first else {
        return Ok(out.extend_from_slice(b"first never\n")?);
    };
    out.extend_from_slice(b"first ")?;
    push_number(out, height)?;
    out.extend_from_slice(b" majority ")?;
    push_majority(out, peers, height)?;
    out.push(b'\n')?;
    Ok(())
}

/// The text of what a comparison of these peers found: a line for each peer with the number of its digests, and the least height at which it differs
/// from the majority; a line with the least height at which two peers differ, and the majority there; and `done`. It fails only where memory runs out.
pub fn print_compared(
    alloc: Global,
    peers: &List<List<[u8; 32]>>,
    found: &Compared,
) -> Result<List<u8>, NoMemory>
    requires { found.now ≡ compared peers.now }
    ensures { IfOk result (λ text. text ≡ comparison peers.now) }
{
    let mut out = Vec::new(alloc);
    push_peers(&mut out, peers.as_slice(), found.peers.as_slice())?;
    push_first(&mut out, peers, found.first)?;
    out.extend_from_slice(b"done\n")?;
    Ok(List::from_vec(out))
}
