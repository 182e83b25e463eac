//! Reading a whole file, and writing all of some bytes.

ghost use Rattle.std.specs.Prelude.{ℕ, List, Option, ◌≡◌, ◌≤◌, ◌<◌, ◌+◌, ◌-◌, ◌^◌, length, take, IfOk, OnOk, OnErr, IfSome, IsErrOf};
ghost use Rattle.edge_traits.specs.Causes.{Rose, NoneFell, Keeps, AllowsFront, piece_bytes};
ghost use Rattle.edge_traits.specs.Fetched.{TellsFailure};
ghost use Rattle.edge_traits.specs.Sink.{appended, WroteFront};

use crate::shelf::Shelf;
use crate::sink::{Sink, SinkFailed};
use rel_base::List;
use std::alloc::{AllocError, Global};

/// Why a file was not read whole.
#[derive(Clone, Copy, PartialEq, Eq)]
pub enum FetchFault {
    /// Memory ran out.
    NoMemory,

    /// A read failed.
    Failed,

    /// The file has more bytes than were allowed.
    TooLong,
}

impl From<AllocError> for FetchFault {
    ghost use Rattle.edge_traits.specs.declared.whole.FetchFault.TheVariants as fault;

    ghost from_gives = { λ _ e. e ≡ fault.NoMemory };

    fn from(_error: AllocError) -> FetchFault {
        FetchFault::NoMemory
    }
}

// How many bytes are asked for at once.
const PIECE: usize = 65536;

/// A buffer of 65,536 bytes on the heap, where the stack would pay for it at each call.
pub fn make_buffer(alloc: Global) -> Result<Vec<u8>, AllocError>
    ensures { IfOk result (λ buffer. length buffer.items ≡ piece_bytes) }
{
    vec![in alloc; 0; PIECE]
}

// Reads the next piece of a file, of which `bytes` are the prefix, through a buffer, and answers the piece's length.
#[tactic(auto, using(crate::proofs::Fronts::told_grows))]
fn add_piece<S: Shelf>(
    shelf: &mut S,
    name: &str,
    bytes: &mut Vec<u8>,
    buffer: &mut [u8],
) -> Result<usize, FetchFault>
    requires room { 0 < length buffer.old }
    requires allowed { S.may_read shelf.old name.now (length bytes.old.items) (length buffer.old) }
    ensures allowed { Keeps (S.may_read shelf.old) (S.may_read shelf.new) }
    ensures told { S.told shelf.new ≡ S.told shelf.old }
    ensures later { NoneFell (S.faults shelf.old) (S.faults shelf.new) }
    ensures counted { TellsFailure result name.now (S.faults shelf.old) (S.faults shelf.new) }
    ensures not_long { IsErrOf result FetchFault.TooLong → ⊥ }
    ensures more { IfOk result (λ count. length bytes.new.items ≡ length bytes.old.items + count) }
    ensures bound { IfOk result (λ count. count ≤ length buffer.old) }
    ensures front { IfOk result (λ count. IfSome (S.told shelf.old) (λ files. bytes.old.items ≡ take (length bytes.old.items) (files name.now)
        → bytes.new.items ≡ take (length bytes.new.items) (files name.now))) }
    ensures end { IfOk result (λ count. count ≡ 0 → IfSome (S.told shelf.old) (λ files. length (files name.now) ≤ length bytes.old.items)) }
{
    match shelf.read_at(name, bytes.len() as u64, buffer) {
        Ok(count) => {
            bytes.extend_from_slice(&buffer[..count])?;
            Ok(count)
        }
        Err(_) => Err(FetchFault::Failed),
    }
}

/// Reads a file to its end, if it has at most `limit` bytes. Each call to the shelf asks for 65,536 bytes, or for those that
/// are left of the first `limit + 1` where they are fewer, and no byte after these is asked for.
///
/// Over a shelf that tells its files, `Ok` is the bytes of the file and `TooLong` comes exactly where they are more than
/// `limit`. The counts of failed reads are as they were unless the answer is `Failed`, so nothing is tried again. Since the
/// call is generic in its shelf, that these bytes of `name` may be read is not only asked of the caller: it also says that no
/// others are ([`Shelf`]).
pub fn read_whole<S: Shelf>(
    alloc: Global,
    shelf: &mut S,
    name: &str,
    limit: u64,
) -> Result<List<u8>, FetchFault>
    requires limit { limit < 2 ^ 64 - 1 }
    requires allowed { AllowsFront (S.may_read shelf.old) name.now (limit + 1) }
    ensures allowed { Keeps (S.may_read shelf.old) (S.may_read shelf.new) }
    ensures told { S.told shelf.new ≡ S.told shelf.old }
    ensures bytes { IfOk result (λ bytes. IfSome (S.told shelf.old) (λ files. bytes ≡ files name.now)) }
    ensures size { IfOk result (λ bytes. length bytes ≤ limit) }
    ensures too_long { IsErrOf result FetchFault.TooLong → IfSome (S.told shelf.old) (λ files. limit < length (files name.now)) }
    ensures later { NoneFell (S.faults shelf.old) (S.faults shelf.new) }
    ensures counted { TellsFailure result name.now (S.faults shelf.old) (S.faults shelf.new) }
{
    let mut buffer = make_buffer(alloc)?;
    let mut bytes = Vec::new(alloc);
    while bytes.len() as u64 <= limit {
        let left = limit + 1 - bytes.len() as u64;
        let size = std::cmp::min(PIECE as u64, left) as usize;
        if add_piece(shelf, name, &mut bytes, &mut buffer[..size])? == 0 {
            return Ok(List::from_vec(bytes));
        }
    }
    Err(FetchFault::TooLong)
}

// Writes some of the bytes after the first `done`, and answers how many of all are written then.
#[tactic(auto, using(crate::proofs::Fronts::goes_on, crate::proofs::Fronts::stays_within))]
fn write_more<W: Sink>(out: &mut W, bytes: &[u8], done: usize) -> Result<usize, SinkFailed>
    requires { done < length bytes.now }
    ensures more { IfOk result (λ next. done < next) }
    ensures bound { IfOk result (λ next. next ≤ length bytes.now) }
    ensures ok { IfOk result (λ next. (before : Option (List ℕ)) → W.written out.old ≡ appended before (take done bytes.now) → W.written out.new ≡ appended before (take next bytes.now)) }
    ensures unchanged { OnErr result (W.written out.new ≡ W.written out.old) }
    ensures later { W.faults out.old ≤ W.faults out.new }
    ensures cause { OnErr result (Rose (W.faults out.old) (W.faults out.new)) }
    ensures quiet { OnOk result (W.faults out.new ≡ W.faults out.old) }
{
    let count = out.write(&bytes[done..])?;
    Ok(done + count)
}

/// Writes all of the bytes. A call that fails has written a prefix of them; one that does not fail leaves the count of failed
/// writes as it was, so nothing is tried again.
pub fn write_whole<W: Sink>(out: &mut W, bytes: &[u8]) -> Result<(), SinkFailed>
    ensures ok { OnOk result (W.written out.new ≡ appended (W.written out.old) bytes.now) }
    ensures err { OnErr result (WroteFront (W.written out.old) (W.written out.new) bytes.now) }
    ensures later { W.faults out.old ≤ W.faults out.new }
    ensures cause { OnErr result (Rose (W.faults out.old) (W.faults out.new)) }
    ensures quiet { OnOk result (W.faults out.new ≡ W.faults out.old) }
{
    let mut done = 0;
    while done < bytes.len() {
        done = write_more(out, bytes, done)?;
    }
    Ok(())
}
