//! The file of what arrives, read piece by piece to its end or to its first fault.

ghost use Rattle.std.specs.Prelude.{◌≡◌, ◌++◌, List, ℕ, IfOk, IfSome, length};
ghost use Rattle.bcdb.specs.ArrivalFiles.{arrived_in};
ghost use Rattle.bcdb.specs.ArrivalReading.{LeadsTo, HasRead, IsRead, TakesLines};
ghost use Rattle.bcdb.specs.Plan.{AllowsCalls, AllowsPlan, CallsFile, Counted, RoseAt, planned_if};
ghost use Rattle.edge_traits.specs.Causes.{Keeps, Rose, piece_bytes};
ghost use Rattle.order_queue.specs.Orders.{IsSubmission};
ghost use Rattle.tx_text.specs.Arrivals.{ArrivalFaultsLast, ArrivalsAreBounded, arrivals};

use crate::fault::FilesFault;
use cli_words::Word;
use edge_traits::{Shelf, make_buffer};
use proc_syntax::Tx;
use rel_base::{List, NoMemory};
use std::alloc::Global;
use tx_text::laws::{arrival_faults_last, arrivals_are_bounded};
use tx_text::{ArrivalFault, ArrivalReader};

/// What one more piece of a file came to.
#[derive(Clone, Copy, PartialEq, Eq)]
pub enum ArrivalPiece {
    /// So many bytes more were read.
    More(usize),
    /// The file has ended.
    End,
    /// The file stopped at this line, which has a fault.
    Stop(u64),
}

// Reads a piece that follows others, and answers the line with a fault that was met.
fn take_piece(
    reader: &mut ArrivalReader,
    txs: &mut List<Tx>,
    piece: &[u8],
) -> Result<Option<u64>, NoMemory>
    ensures { (bytes : List ℕ) → HasRead bytes reader.old txs.old → IfOk result (TakesLines (bytes ++ piece.now) reader.new txs.new) }
{
    match reader.feed(piece) {
        Ok(more) => {
            txs.append(more)?;
            Ok(None)
        }
        Err(ArrivalFault::Bad { line }) => Ok(Some(line)),
        Err(ArrivalFault::NoMemory) => Err(NoMemory),
    }
}

// The transactions of a file that ends here, or the line with its fault.
#[tactic(auto, using(crate::proofs::Arriving::read_whole))]
fn end_read(mut reader: ArrivalReader, txs: List<Tx>) -> Result<List<Tx>, u64>
    ensures { (bytes : List ℕ) → HasRead bytes reader txs → arrivals bytes ≡ result }
{
    let ended = reader.end();
    drop(reader);
    match ended {
        Ok(()) => Ok(txs),
        Err(line) => {
            drop(txs);
            Err(line)
        }
    }
}

// Reads one more piece of a file, of which so many bytes were read.
#[tactic(auto, using(crate::proofs::Arriving::goes_on, crate::proofs::Arriving::within, crate::proofs::Arriving::stops, crate::proofs::Arriving::ends, crate::proofs::Arriving::may_go_on))]
fn read_piece<S: Shelf>(
    shelf: &mut S,
    name: &str,
    at: u64,
    buffer: &mut [u8],
    reader: &mut ArrivalReader,
    txs: &mut List<Tx>,
) -> Result<ArrivalPiece, FilesFault>
    requires allowed { AllowsCalls (S.told shelf.old) (S.may_read shelf.old) name.now }
    requires room { length buffer.old ≡ piece_bytes }
    requires bounded { ArrivalsAreBounded }
    requires lasting { ArrivalFaultsLast }
    requires read { IsRead (S.told shelf.old) name.now at reader.old txs.old }
    ensures goes { IfOk result (λ step. LeadsTo step (S.told shelf.old) name.now at reader.new txs.new) }
    ensures told { S.told shelf.new ≡ S.told shelf.old }
    ensures allowed { Keeps (S.may_read shelf.old) (S.may_read shelf.new) }
    ensures counted { Counted result (Rose (S.faults shelf.old name.now) (S.faults shelf.new name.now)) (S.faults shelf.old) (S.faults shelf.new) }
{
    let Ok(count) = shelf.read_at(name, at, buffer) else {
        return Err(FilesFault::Failed);
    };
    if count == 0 {
        return Ok(ArrivalPiece::End);
    }
    match take_piece(reader, txs, &buffer[..count])? {
        None => Ok(ArrivalPiece::More(count)),
        Some(line) => Ok(ArrivalPiece::Stop(line)),
    }
}

// Reads a file from its start, by a buffer that has room.
#[tactic(auto, using(crate::proofs::Arriving::told_whole, crate::proofs::Arriving::submits))]
fn read_through<S: Shelf>(
    alloc: Global,
    shelf: &mut S,
    name: &str,
    buffer: &mut [u8],
) -> Result<Result<List<Tx>, u64>, FilesFault>
    requires allowed { AllowsCalls (S.told shelf.old) (S.may_read shelf.old) name.now }
    requires room { length buffer.old ≡ piece_bytes }
    ensures told { IfOk result (λ read. IfSome (S.told shelf.old) (λ files. arrivals (files name.now) ≡ read)) }
    ensures submission { IfOk result (λ read. IfOk read IsSubmission) }
    ensures same { S.told shelf.new ≡ S.told shelf.old }
    ensures allowed { Keeps (S.may_read shelf.old) (S.may_read shelf.new) }
    ensures counted { Counted result (Rose (S.faults shelf.old name.now) (S.faults shelf.new name.now)) (S.faults shelf.old) (S.faults shelf.new) }
{
    arrivals_are_bounded();
    arrival_faults_last();
    let mut reader = ArrivalReader::new(alloc);
    let mut txs = List::new(alloc);
    let mut at: u64 = 0;
    loop {
        match read_piece(shelf, name, at, buffer, &mut reader, &mut txs) {
            Ok(ArrivalPiece::More(count)) => at += count as u64,
            Ok(ArrivalPiece::End) => return Ok(end_read(reader, txs)),
            Ok(ArrivalPiece::Stop(line)) => {
                drop(reader);
                drop(txs);
                return Ok(Err(line));
            }
            Err(fault) => {
                drop(reader);
                drop(txs);
                return Err(fault);
            }
        }
    }
}

// The transactions of a file, which a client may submit, or its first line with a fault.
fn read_file<S: Shelf>(
    alloc: Global,
    shelf: &mut S,
    name: &str,
) -> Result<Result<List<Tx>, u64>, FilesFault>
    requires allowed { AllowsCalls (S.told shelf.old) (S.may_read shelf.old) name.now }
    ensures told { IfOk result (λ read. IfSome (S.told shelf.old) (λ files. arrivals (files name.now) ≡ read)) }
    ensures submission { IfOk result (λ read. IfOk read IsSubmission) }
    ensures same { S.told shelf.new ≡ S.told shelf.old }
    ensures allowed { Keeps (S.may_read shelf.old) (S.may_read shelf.new) }
    ensures counted { Counted result (Rose (S.faults shelf.old name.now) (S.faults shelf.new name.now)) (S.faults shelf.old) (S.faults shelf.new) }
{
    let mut buffer = make_buffer(alloc)?;
    read_through(alloc, shelf, name, &mut buffer)
}

/// What arrives by a file, if one is named: its transactions, or its first line with a fault.
///
/// Each call to the shelf asks for 65,536 bytes, and none is made once the fault is met: a file is asked for no byte after the
/// piece that has its fault. A read that fails is not tried again.
#[tactic(auto, using(crate::proofs::Planning::counted_one, crate::proofs::Arriving::none_submitted))]
pub fn read_arrivals<S: Shelf>(
    alloc: Global,
    shelf: &mut S,
    name: &Option<Word>,
) -> Result<Result<List<Tx>, u64>, FilesFault>
    requires allowed { AllowsPlan (planned_if CallsFile name.now) (S.told shelf.old) (S.may_read shelf.old) }
    ensures told { IfOk result (λ read. IfSome (S.told shelf.old) (λ files. arrived_in name.now files ≡ read)) }
    ensures submission { IfOk result (λ read. IfOk read IsSubmission) }
    ensures same { S.told shelf.new ≡ S.told shelf.old }
    ensures allowed { Keeps (S.may_read shelf.old) (S.may_read shelf.new) }
    ensures counted { Counted result (RoseAt (planned_if CallsFile name.now) (S.faults shelf.old) (S.faults shelf.new)) (S.faults shelf.old) (S.faults shelf.new) }
{
    match name {
        None => Ok(Ok(List::new(alloc))),
        Some(name) => read_file(alloc, shelf, name.as_str()),
    }
}
