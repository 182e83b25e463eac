//! Arrival files, read in pieces.

ghost use Rattle.std.specs.Prelude.{◌≡◌, ◌≤◌, ◌++◌, ℕ, List, [], Some, Ok, Err, IfErr, OnOk, OnErr, IsOk};
ghost use Rattle.std.specs.List.{flat_map};
ghost use Rattle.tx_text.specs.Parts.{onto, parts_of, most_line_bytes};
ghost use Rattle.tx_text.specs.Listing.{ending, walk};
ghost use Rattle.tx_text.specs.Arrivals.{arrivals, arrivals_form, arrived};
ghost use Rattle.tx_text.specs.Feeding.{Answers, EndsAs, WasFed, FollowsOn, Gives, GivesPiece, HoldsOn, fault_met, open_length};

use crate::arrivals::{ArrivalFault, read_on};
use crate::held::extend;
use crate::line::MOST_LINE_BYTES;
use crate::split::split_line;
use proc_syntax::Tx;
use rel_base::List;
use std::alloc::Global;

/// What is known after bytes: the number of the line in which they end, from 1, and the bytes of that line; or the line of the
/// first fault.
#[derive(Drop)]
enum State {
    Open { line: u64, held: List<u8> },
    Stopped { line: u64 },
}

/// Takes a piece in which no line ends.
fn hold(alloc: Global, line: u64, held: &mut List<u8>, piece: &[u8]) -> Result<(), ArrivalFault>
    ensures given { HoldsOn result line held.old held.new piece.now }
    ensures err { OnErr result (held.new ≡ held.old) }
{
    if held.len().saturating_add(piece.len()) > MOST_LINE_BYTES {
        return Err(ArrivalFault::Bad { line });
    }
    extend(alloc, held, piece)?;
    Ok(())
}

/// Takes a piece that goes on with a line that has begun.
fn go_on(
    alloc: Global,
    line: &mut u64,
    held: &mut List<u8>,
    piece: &[u8],
) -> Result<List<Tx>, ArrivalFault>
    ensures given { GivesPiece result line.new held.new (walk arrivals_form line.old (onto held.old (parts_of piece.now))) }
    ensures err { OnErr result ((line.new ≡ line.old) × (held.new ≡ held.old)) }
{
    match split_line(piece) {
        None => {
            hold(alloc, *line, held, piece)?;
            Ok(List::new(alloc))
        }
        Some((end, after)) => {
            let read = read_on(alloc, *line, held.as_slice(), end, after)?;
            *line = read.line;
            *held = read.held;
            Ok(read.txs)
        }
    }
}

/// A reader of an arrival file, which is fed with the file piece by piece.
///
/// It keeps the bytes after the last newline and how many lines were read. Contracts say that it `WasFed` the bytes that it
/// was fed.
#[derive(Drop)]
pub struct ArrivalReader {
    alloc: Global,
    state: State,
}

impl ArrivalReader {
    /// A reader that was fed with nothing yet.
    pub fn new(alloc: Global) -> ArrivalReader
        ensures { WasFed result [] }
    {
        ArrivalReader {
            alloc,
            state: State::Open {
                line: 1,
                held: List::new(alloc),
            },
        }
    }

    /// How many bytes stand after the last newline, which the reader keeps: at most 4,096, and none after a fault.
    pub fn held(&self) -> usize
        ensures held { (bytes : List ℕ) → WasFed self.now bytes → result ≡ open_length (arrived bytes) }
        ensures most { (bytes : List ℕ) → WasFed self.now bytes → result ≤ most_line_bytes }
        ensures stopped { (line : ℕ) → fault_met self.now ≡ Some line → result ≡ 0 }
    {
        match &self.state {
            State::Open { held, .. } => held.len(),
            State::Stopped { .. } => 0,
        }
    }

    /// Takes the next piece of the file, and answers the transactions of the lines that end in it, in order.
    ///
    /// `Bad` names the first line that has a fault. It comes with the piece in which that line's newline stands, or the
    /// 4,097th byte of a line that is too long; and with each piece after a fault. Where memory runs out, the reader is as
    /// before.
    pub fn feed(&mut self, piece: &[u8]) -> Result<List<Tx>, ArrivalFault>
        ensures follows { (bytes : List ℕ) → WasFed self.old bytes → FollowsOn self.new (bytes ++ piece.now) result }
        ensures fed { (bytes : List ℕ) → WasFed self.old bytes → Answers bytes piece.now result }
        ensures stopped { (line : ℕ) → fault_met self.old ≡ Some line → (self.new ≡ self.old) × (result ≡ Err (ArrivalFault.Bad line)) }
        ensures stops { (line : ℕ) → result ≡ Err (ArrivalFault.Bad line) → fault_met self.new ≡ Some line }
        ensures memory { result ≡ Err ArrivalFault.NoMemory → self.new ≡ self.old }
    {
        match &mut self.state {
            State::Stopped { line } => Err(ArrivalFault::Bad { line: *line }),
            State::Open { line, held } => match go_on(self.alloc, line, held, piece) {
                Ok(txs) => Ok(txs),
                Err(ArrivalFault::NoMemory) => Err(ArrivalFault::NoMemory),
                Err(ArrivalFault::Bad { line }) => {
                    self.state = State::Stopped { line };
                    Err(ArrivalFault::Bad { line })
                }
            },
        }
    }

    /// Ends the file: nothing where the bytes so far are a whole file, and else the first line with a fault. After a fault a
    /// reader answers that line alone.
    pub fn end(&mut self) -> Result<(), u64>
        ensures whole { (bytes : List ℕ) → WasFed self.old bytes → EndsAs result (arrivals bytes) }
        ensures stopped { (line : ℕ) → fault_met self.old ≡ Some line → result ≡ Err line }
        ensures same { OnOk result (self.new ≡ self.old) }
        ensures stops { IfErr result (λ line. fault_met self.new ≡ Some line) }
    {
        match &self.state {
            State::Stopped { line } => Err(*line),
            State::Open { line, held } => {
                if *line > 1 && held.is_empty() {
                    return Ok(());
                }
                let line = *line;
                self.state = State::Stopped { line };
                Err(line)
            }
        }
    }
}

/// The transactions of a whole file that is given in pieces, or the first line with a fault. How the file is cut changes nothing.
pub fn read_arrivals(alloc: Global, pieces: &[List<u8>]) -> Result<List<Tx>, ArrivalFault>
    ensures { Gives result (arrivals (flat_map (λ piece. piece) pieces.now)) }
{
    let mut reader = ArrivalReader::new(alloc);
    let mut given = List::new(alloc);
    for piece in pieces {
        let txs = reader.feed(piece.as_slice())?;
        given.append(txs)?;
    }
    match reader.end() {
        Ok(()) => Ok(given),
        Err(line) => Err(ArrivalFault::Bad { line }),
    }
}
