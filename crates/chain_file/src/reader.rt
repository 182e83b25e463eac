//! Block files, read in pieces.

ghost use Rattle.std.specs.Prelude.{◌≡◌, ◌≤◌, ◌++◌, ◌∷◌, ℕ, List, [], Some, None, Result, Ok, Err, IfOk, IfSome, OnOk, OnErr, IfErr, length};
ghost use Rattle.std.specs.List.{flat_map};
ghost use Rattle.std.specs.Prelude.{Option};
ghost use Rattle.tx_text.specs.Parts.{parts_of, most_line_bytes};
ghost use Rattle.chain_file.specs.Chain.{Position, chain, ended_blocks, fault_at_end, is_between, open_length, walk, walked};
ghost use Rattle.chain_file.specs.Headers.{file_form, form_after, version_of};
ghost use Rattle.chain_file.specs.Following.{Answers, EndsAs, WasFed, KeepsChain, Reads, StandsAt, fault_met};

use crate::advance::{LineStop, take_line};
use crate::finish::finish;
use crate::form::{ChainVersion, FileForm, file_form};
use crate::resume::{Before, before_piece, read_more};
use crate::section::Section;
use crate::standing::Standing;
use proc_syntax::{Block, ChainFault, ChainKind};
use rel_base::{List, NoMemory};
use std::alloc::Global;
use tx_text::held::{copy_of, joined};
use tx_text::{MOST_LINE_BYTES, split_line};

/// What is known after bytes: what stands before the line in which they end, and the bytes of that line; or the first fault.
#[derive(Drop)]
pub enum State {
    Open { standing: Standing, held: List<u8> },
    Stopped(ChainFault),
}

/// What bytes gave: the blocks that ended, and what is known after them.
#[derive(Drop)]
pub struct ReadBlocks {
    pub blocks: List<Block>,
    pub state: State,
}

/// What a piece of a file gave.
#[derive(Drop)]
pub struct Fed {
    /// The blocks whose last line ended in the piece, before any fault.
    pub blocks: List<Block>,
    /// The fault of the file, where one was met.
    pub fault: Option<ChainFault>,
}

/// Puts the block that ended at the end of others.
fn push_ended(given: &mut List<Block>, ended: Option<Block>) -> Result<(), NoMemory>
    ensures { OnOk result (given.new ≡ given.old ++ ended_blocks ended) }
{
    if let Some(block) = ended {
        given.push(block)?;
    }
    Ok(())
}

/// What the bytes after the last newline leave.
fn last_part(alloc: Global, standing: Standing, rest: &[u8]) -> Result<State, NoMemory>
    requires { parts_of rest.now ≡ rest.now ∷ [] }
    ensures { (at : Position) → StandsAt standing at → IfOk result (λ state. KeepsChain state (walk at (rest.now ∷ [])).1) }
{
    if rest.len() > MOST_LINE_BYTES {
        return Ok(State::Stopped(ChainFault {
            line: standing.spot.line,
            kind: ChainKind::LineTooLong,
        }));
    }
    let held = copy_of(alloc, rest)?;
    Ok(State::Open { standing, held })
}

/// Reads lines, and what stands after the last of them.
pub fn read_lines(alloc: Global, standing: Standing, bytes: &[u8]) -> Result<ReadBlocks, NoMemory>
    ensures { (at : Position) → StandsAt standing at → IfOk result (λ read. Reads read (walk at (parts_of bytes.now))) }
{
    let Standing { spot, mut hashes } = standing;
    let mut given = List::new(alloc);
    let mut before = spot;
    let mut rest = bytes;
    while let Some((line, after)) = split_line(rest) {
        match take_line(alloc, before, &mut hashes, line) {
            Ok((next, ended)) => {
                push_ended(&mut given, ended)?;
                before = next;
            }
            Err(LineStop::NoMemory) => return Err(NoMemory),
            Err(LineStop::Fault(fault)) => {
                return Ok(ReadBlocks {
                    blocks: given,
                    state: State::Stopped(fault),
                });
            }
        }
        rest = after;
    }
    let spot = before;
    let state = last_part(alloc, Standing { spot, hashes }, rest)?;
    Ok(ReadBlocks {
        blocks: given,
        state,
    })
}

/// Reads bytes that stand after the last newline. Where memory is wanting, all is as before.
fn read_on(alloc: Global, standing: &mut Standing, bytes: &[u8]) -> Result<ReadBlocks, NoMemory>
    ensures reads { (at : Position) → StandsAt standing.old at → IfOk result (λ read. Reads read (walk at (parts_of bytes.now))) }
    ensures err { OnErr result (standing.new ≡ standing.old) }
{
    let before = before_piece(alloc, standing)?;
    match before {
        Before::Between(twin) => read_lines(alloc, twin, bytes),
        Before::Within(going) => {
            let more = read_more(alloc, going, bytes)?;
            finish(alloc, &mut standing.spot, more)
        }
    }
}

/// Reads a piece that follows bytes after the last newline. Where memory is wanting, all is as before.
fn read_piece(
    alloc: Global,
    standing: &mut Standing,
    held: &[u8],
    piece: &[u8],
) -> Result<ReadBlocks, NoMemory>
    ensures reads { (at : Position) → StandsAt standing.old at → IfOk result (λ read. Reads read (walk at (parts_of (held.now ++ piece.now)))) }
    ensures err { OnErr result (standing.new ≡ standing.old) }
{
    if held.is_empty() {
        return read_on(alloc, standing, piece);
    }
    let bytes = joined(alloc, held, piece)?;
    read_on(alloc, standing, &bytes)
}

/// The form of a file after a piece more, where bytes stand before it after the last newline.
fn form_after(
    alloc: Global,
    form: Option<FileForm>,
    held: &[u8],
    piece: &[u8],
) -> Result<Option<FileForm>, NoMemory>
    ensures { IfOk result (λ now. now ≡ form_after form (held.now ++ piece.now)) }
{
    if form.is_some() {
        return Ok(form);
    }
    if held.is_empty() {
        return Ok(file_form(piece));
    }
    let bytes = joined(alloc, held, piece)?;
    Ok(file_form(&bytes))
}

/// The fault that was met.
fn fault_met(state: &State) -> Option<ChainFault>
    ensures { result ≡ fault_met state.now }
{
    match state {
        State::Open { .. } => None,
        State::Stopped(fault) => Some(*fault),
    }
}

/// The fault of a file that ends here.
fn fault_at_end(state: &State) -> Option<ChainFault>
    ensures met { IfSome (fault_met state.now) (λ fault. result ≡ Some fault) }
    ensures end { (meant : Result (Position × List ℕ) ChainFault) → KeepsChain state.now meant → result ≡ fault_at_end meant }
{
    match state {
        State::Stopped(fault) => Some(*fault),
        State::Open { standing, held } => {
            if held.is_empty() && matches!(standing.spot.place, Section::Between { .. }) {
                return None;
            }
            Some(ChainFault {
                line: standing.spot.line,
                kind: ChainKind::Truncated,
            })
        }
    }
}

/// A reader of a block file, which is fed with the file piece by piece.
///
/// It keeps the bytes after the last newline, the block that has begun and the hash of that block's bytes. Contracts say that it
/// `WasFed` the bytes that it was fed.
#[derive(Drop)]
pub struct Reader {
    alloc: Global,
    state: State,
    /// The form of the file, where its header was read.
    form: Option<FileForm>,
}

impl Reader {
    /// A reader that was fed with nothing yet.
    pub fn new(alloc: Global) -> Reader
        ensures { WasFed result [] }
    {
        Reader {
            alloc,
            state: State::Open {
                standing: Standing::front(),
                held: List::new(alloc),
            },
            form: None,
        }
    }

    /// The form of the file: none exactly where no whole first line was fed, or it is no header.
    pub fn form(&self) -> Option<FileForm>
        ensures { (bytes : List ℕ) → WasFed self.now bytes → result ≡ file_form bytes }
    {
        self.form
    }

    /// The version of the file: none exactly where no whole first line was fed, or it is no header.
    pub fn version(&self) -> Option<ChainVersion>
        ensures { (bytes : List ℕ) → WasFed self.now bytes → result ≡ version_of bytes }
    {
        self.form.map(|form| form.version)
    }

    /// How many bytes stand after the last newline, which the reader keeps: at most 4,096, and none after a fault.
    #[tactic(auto, using(crate::proofs::Held::open_held, crate::proofs::Held::stopped_held))]
    pub fn held(&self) -> usize
        ensures held { (bytes : List ℕ) → WasFed self.now bytes → result ≡ open_length (walked bytes).1 }
        ensures most { (bytes : List ℕ) → WasFed self.now bytes → result ≤ most_line_bytes }
        ensures stopped { (found : ChainFault) → fault_met self.now.state ≡ Some found → result ≡ 0 }
    {
        match &self.state {
            State::Open { held, .. } => held.len(),
            State::Stopped(_) => 0,
        }
    }

    /// Takes the next piece of the file, and answers the blocks whose last line ended in it, and the fault that was met in it or
    /// before. Where memory runs out, the reader is as before.
    pub fn feed(&mut self, piece: &[u8]) -> Result<Fed, NoMemory>
        ensures follows { (bytes : List ℕ) → WasFed self.old bytes → OnOk result (WasFed self.new (bytes ++ piece.now)) }
        ensures fed { (bytes : List ℕ) → WasFed self.old bytes → IfOk result (Answers bytes piece.now) }
        ensures stopped { (found : ChainFault) → fault_met self.old.state ≡ Some found → (self.new ≡ self.old) × (result ≡ Ok (record { blocks = []; fault = Some found })) }
        ensures err { OnErr result (self.new ≡ self.old) }
    {
        match &mut self.state {
            State::Stopped(fault) => Ok(Fed {
                blocks: List::new(self.alloc),
                fault: Some(*fault),
            }),
            State::Open { standing, held } => {
                let held = held.as_slice();
                let form = form_after(self.alloc, self.form, held, piece)?;
                let read = read_piece(self.alloc, standing, held, piece)?;
                let ReadBlocks { blocks, state } = read;
                let fault = fault_met(&state);
                self.state = state;
                self.form = form;
                Ok(Fed { blocks, fault })
            }
        }
    }

    /// Ends the file: nothing where the bytes so far are a whole file, and else its first fault. After a fault a reader answers
    /// that fault alone.
    pub fn end(&mut self) -> Result<(), ChainFault>
        ensures whole { (bytes : List ℕ) → WasFed self.old bytes → EndsAs result (chain bytes).1 }
        ensures stopped { (found : ChainFault) → fault_met self.old.state ≡ Some found → result ≡ Err found }
        ensures same { OnOk result (self.new ≡ self.old) }
        ensures stops { IfErr result (λ found. fault_met self.new.state ≡ Some found) }
    {
        match fault_at_end(&self.state) {
            None => Ok(()),
            Some(fault) => {
                self.state = State::Stopped(fault);
                Err(fault)
            }
        }
    }
}

/// The fault of a file that ended so.
fn fault_of(ended: Result<(), ChainFault>) -> Option<ChainFault>
    ensures { (meant : Option ChainFault) → EndsAs ended meant → result ≡ meant }
{
    match ended {
        Ok(()) => None,
        Err(fault) => Some(fault),
    }
}

/// Reads a whole file that is given in pieces: its blocks up to its first fault, and that fault. How the file is cut changes nothing.
pub fn read_pieces(alloc: Global, pieces: &[List<u8>]) -> Result<Fed, NoMemory>
    ensures { IfOk result (λ read. chain (flat_map (λ piece. piece) pieces.now) ≡ (read.blocks, read.fault)) }
{
    let mut reader = Reader::new(alloc);
    let mut given = List::new(alloc);
    for piece in pieces {
        let fed = reader.feed(piece.as_slice())?;
        given.append(fed.blocks)?;
    }
    let fault = fault_of(reader.end());
    Ok(Fed {
        blocks: given,
        fault,
    })
}
