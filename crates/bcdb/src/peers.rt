//! The digest files of peers, read one after another.

ghost use Rattle.std.specs.Prelude.{◌≡◌, ◌+◌, ◌≤◌, IfOk, IfSome, IsErrOf, length};
ghost use Rattle.bcdb.specs.ArrivalFiles.{node_file};
ghost use Rattle.bcdb.specs.PeerFiles.{after_others, all_digests, digests_read};
ghost use Rattle.bcdb.specs.Plan.{AllowsPlan, Counted, RoseAt, RoseIn, digests_plan};
ghost use Rattle.checkpoint.specs.Files.{digests_of};
ghost use Rattle.edge_traits.specs.Causes.{AllowsFront, Keeps, Rose};
ghost use Rattle.proc_syntax.specs.Limits.{most_peers};

use crate::fault::FilesFault;
use crate::node_arrivals::node_file;
use crate::refusal::BadDigests;
use checkpoint::{DigestFault, read_digests};
use edge_traits::{FetchFault, Shelf, read_whole};
use rel_base::{List, NoMemory};
use std::alloc::Global;

/// The greatest number of bytes of a digest file.
const LONGEST_DIGESTS: u64 = 73_000_010;

// The digests of some bytes, or their first bad line.
fn parse_digests(alloc: Global, bytes: &[u8]) -> Result<Result<List<[u8; 32]>, u64>, NoMemory>
    ensures { IfOk result (λ read. digests_of bytes.now ≡ read) }
{
    match read_digests(alloc, bytes) {
        Ok(digests) => Ok(Ok(digests)),
        Err(DigestFault::Bad { line }) => Ok(Err(line)),
        Err(DigestFault::NoMemory) => Err(NoMemory),
    }
}

// The digests of a file, or its first bad line. A read that fails is not tried again.
#[tactic(auto, using(crate::proofs::Digests::long_told, crate::proofs::Digests::short_told))]
fn fetch_digests<S: Shelf>(
    alloc: Global,
    shelf: &mut S,
    name: &str,
) -> Result<Result<List<[u8; 32]>, u64>, FilesFault>
    requires allowed { AllowsFront (S.may_read shelf.old) name.now 73000011 }
    ensures told { IfOk result (λ read. IfSome (S.told shelf.old) (λ files. digests_read (files name.now) ≡ read)) }
    ensures same { S.told shelf.new ≡ S.told shelf.old }
    ensures allowed { Keeps (S.may_read shelf.old) (S.may_read shelf.new) }
    ensures counted { Counted result (Rose (S.faults shelf.old name.now) (S.faults shelf.new name.now)) (S.faults shelf.old) (S.faults shelf.new) }
{
    match read_whole(alloc, shelf, name, LONGEST_DIGESTS) {
        Ok(bytes) => {
            let read = parse_digests(alloc, bytes.as_slice())?;
            Ok(read)
        }
        Err(FetchFault::TooLong) => Ok(Err(0)),
        Err(FetchFault::Failed) => Err(FilesFault::Failed),
        Err(FetchFault::NoMemory) => Err(FilesFault::NoMemory),
    }
}

// The digests of a peer, or the first bad line of its file.
fn read_peer<S: Shelf>(
    alloc: Global,
    shelf: &mut S,
    prefix: &str,
    peer: u32,
) -> Result<Result<List<[u8; 32]>, u64>, FilesFault>
    requires allowed { AllowsFront (S.may_read shelf.old) (node_file prefix.now peer) 73000011 }
    ensures told { IfOk result (λ read. IfSome (S.told shelf.old) (λ files. digests_read (files (node_file prefix.now peer)) ≡ read)) }
    ensures same { S.told shelf.new ≡ S.told shelf.old }
    ensures allowed { Keeps (S.may_read shelf.old) (S.may_read shelf.new) }
    ensures counted { Counted result (Rose (S.faults shelf.old (node_file prefix.now peer)) (S.faults shelf.new (node_file prefix.now peer))) (S.faults shelf.old) (S.faults shelf.new) }
{
    let name = node_file(alloc, prefix, peer)?;
    fetch_digests(alloc, shelf, name.as_str())
}

// The digests of so many peers from one on, after those of others; or the first peer whose file is refused.
#[tactic(auto, using(crate::proofs::Digests::may_read_peer, crate::proofs::Digests::may_read_rest))]
fn read_from<S: Shelf>(
    alloc: Global,
    shelf: &mut S,
    prefix: &str,
    peer: u32,
    left: u32,
    others: List<List<[u8; 32]>>,
) -> Result<Result<List<List<[u8; 32]>>, BadDigests>, FilesFault>
    requires few { peer + left ≤ 9 }
    requires allowed { AllowsPlan (digests_plan prefix.now peer left) (S.told shelf.old) (S.may_read shelf.old) }
    ensures told { IfOk result (λ read. IfSome (S.told shelf.old) (λ files. after_others others (all_digests prefix.now peer left files) ≡ read)) }
    ensures turn { IsErrOf result FilesFault.Failed → IfSome (S.told shelf.old) (λ files. RoseIn (digests_plan prefix.now peer left) files (S.faults shelf.old) (S.faults shelf.new)) }
    ensures counted { Counted result (RoseAt (digests_plan prefix.now peer left) (S.faults shelf.old) (S.faults shelf.new)) (S.faults shelf.old) (S.faults shelf.new) }
{
    if left == 0 {
        return Ok(Ok(others));
    }
    match read_peer(alloc, shelf, prefix, peer) {
        Ok(Ok(digests)) => {
            let mut peers = others;
            peers.push(digests)?;
            read_from(alloc, shelf, prefix, peer + 1, left - 1, peers)
        }
        Ok(Err(line)) => Ok(Err(BadDigests { peer, line })),
        Err(fault) => Err(fault),
    }
}

/// The digests of peers, in their order; or the first peer whose file is refused, with the line.
///
/// A file is read only once those of the peers before it are what they must be. A read that fails is not tried again.
pub fn read_peers<S: Shelf>(
    alloc: Global,
    shelf: &mut S,
    prefix: &str,
    count: u32,
) -> Result<Result<List<List<[u8; 32]>>, BadDigests>, FilesFault>
    requires few { count ≤ most_peers }
    requires allowed { AllowsPlan (digests_plan prefix.now 1 count) (S.told shelf.old) (S.may_read shelf.old) }
    ensures told { IfOk result (λ read. IfSome (S.told shelf.old) (λ files. all_digests prefix.now 1 count files ≡ read)) }
    ensures turn { IsErrOf result FilesFault.Failed → IfSome (S.told shelf.old) (λ files. RoseIn (digests_plan prefix.now 1 count) files (S.faults shelf.old) (S.faults shelf.new)) }
    ensures counted { Counted result (RoseAt (digests_plan prefix.now 1 count) (S.faults shelf.old) (S.faults shelf.new)) (S.faults shelf.old) (S.faults shelf.new) }
{
    read_from(alloc, shelf, prefix, 1, count, List::new(alloc))
}
