//! Pieces of a block file that go on with a block which began before them.
//!
//! The transactions that the block had before stay where they are kept until nothing can fail any more.

ghost use Rattle.std.specs.Prelude.{◌≡◌, ◌+◌, ◌∷◌, ◌++◌, ℕ, List, [], length, IfOk};
ghost use Rattle.tx_text.specs.Parts.{line_text, parts_of};
ghost use Rattle.chain_file.specs.Blocks.{block_of};
ghost use Rattle.chain_file.specs.Chain.{Position, ended_blocks, walk, with_blocks};
ghost use Rattle.chain_file.specs.Following.{Knows, StandsAt};
ghost use Rattle.chain_file.specs.Resumed.{Begins, Counts, Fits, Resumes, behind_end, going_at, txs_in};

use crate::form::FileForm;
use crate::going::Going;
use crate::reader::{ReadBlocks, State, read_lines};
use crate::section::Section;
use crate::standing::{LinePoint, Standing};
use crate::step::{StepFault, told_within};
use proc_syntax::{Block, ChainFault, ChainKind, Tx};
use rel_base::{List, NoMemory};
use std::alloc::Global;
use tx_text::held::copy_of;
use tx_text::{MOST_LINE_BYTES, split_line};

/// What the lines of a piece go on with: a place outside of blocks, or a block that has begun, whose transactions stay where they
/// are.
#[derive(Drop)]
pub enum Before {
    Between(Standing),
    Within(Going),
}

/// What the lines of a piece give that go on with a block.
#[derive(Drop)]
pub enum More {
    /// The block goes on after the piece, which ends in these bytes of a line.
    Goes {
        going: Going,
        held: List<u8>,
    },
    /// The block of this number and time ended, with these transactions of the piece. The blocks that follow it stand after a place for it.
    Ends {
        number: u64,
        time: u64,
        txs: List<Tx>,
        blocks: List<Block>,
        state: State,
    },
    /// The first fault, met in the block.
    Stopped(ChainFault),
}

/// The same standing again, outside of blocks.
fn outside(standing: &Standing, place: Section) -> Result<Standing, NoMemory>
    requires { place ≡ standing.now.spot.place }
    ensures { (at : Position) → StandsAt standing.now at → IfOk result (λ twin. StandsAt twin at) }
{
    let line = standing.spot.line;
    Ok(Standing {
        spot: LinePoint { line, place },
        hashes: standing.hashes.copy()?,
    })
}

/// The block that has begun, without its transactions.
#[tactic(auto, using(crate::proofs::Near::going_begun, crate::proofs::Resumed::at_begun, crate::proofs::Resumed::count_begun, crate::proofs::Resumed::known_begun))]
fn begun(
    alloc: Global,
    standing: &Standing,
    form: FileForm,
    count: u64,
    time: u64,
    txs: &List<Tx>,
) -> Result<Going, NoMemory>
    requires { standing.now.spot.place ≡ Section.Within form count time txs.now }
    ensures begins { (at : Position) → StandsAt standing.now at → IfOk result (λ going. (at ≡ going_at (txs_in standing.now.spot.place) going at.digits at.bytes) × Knows going.form.kind going.hashes at.digits at.bytes) }
    ensures before { IfOk result (λ going. going.before ≡ length (txs_in standing.now.spot.place)) }
{
    Ok(Going {
        form,
        count,
        time,
        before: txs.len(),
        line: standing.spot.line,
        hashes: standing.hashes.copy()?,
        txs: List::new(alloc),
    })
}

/// What the lines of a piece go on with.
pub fn before_piece(alloc: Global, standing: &Standing) -> Result<Before, NoMemory>
    ensures begins { (at : Position) → StandsAt standing.now at → IfOk result (λ before. Begins (txs_in standing.now.spot.place) before at) }
    ensures counts { IfOk result (λ before. Counts (txs_in standing.now.spot.place) before) }
{
    match &standing.spot.place {
        Section::Start => {
            let twin = outside(standing, Section::Start)?;
            Ok(Before::Between(twin))
        }
        Section::Between { form, count, time } => {
            let (form, count, time) = (*form, *count, *time);
            let twin = outside(standing, Section::Between { form, count, time })?;
            Ok(Before::Between(twin))
        }
        Section::Within {
            form,
            count,
            time,
            txs,
        } => {
            let going = begun(alloc, standing, *form, *count, *time, txs)?;
            Ok(Before::Within(going))
        }
    }
}

/// A block without transactions, in the place of one.
fn blank_block(alloc: Global, number: u64) -> Block {
    match Block::new(number, 0, List::new(alloc)) {
        Ok(block) => block,
        Err(_) => unreachable!(),
    }
}

/// The blocks after another.
fn behind(alloc: Global, first: Block, following: List<Block>) -> Result<List<Block>, NoMemory>
    ensures { IfOk result (λ blocks. blocks ≡ first ∷ following) }
{
    let mut blocks = List::new(alloc);
    blocks.push(first)?;
    blocks.append(following)?;
    Ok(blocks)
}

/// Reads what follows the line that ends the block.
#[tactic(auto, using(crate::proofs::Near::going_low, crate::proofs::Near::going_count, crate::proofs::Near::going_ended, crate::proofs::Near::going_few))]
fn end_going(alloc: Global, going: Going, line: &[u8], after: &[u8]) -> Result<More, NoMemory>
    ensures fits { (kept : List Tx) → going.before ≡ length kept → IfOk result (λ more. Fits kept more) }
    ensures resumes { (kept : List Tx) (digits bytes : List ℕ) → Knows going.form.kind going.hashes digits bytes → IfOk result (λ more. Resumes kept more (with_blocks (ended_blocks (block_of (going.count + 1) going.time (kept ++ going.txs))) (walk (behind_end going (bytes ++ line_text line.now)) (parts_of after.now)))) }
{
    let Going {
        form,
        count,
        time,
        line: number,
        mut hashes,
        txs,
        ..
    } = going;
    hashes.end(form.kind, line);
    let count = count + 1;
    let spot = LinePoint {
        line: number + 1,
        place: Section::Between { form, count, time },
    };
    let standing = Standing { spot, hashes };
    let read = read_lines(alloc, standing, after)?;
    let ReadBlocks {
        blocks: following,
        state,
    } = read;
    let blocks = behind(alloc, blank_block(alloc, count), following)?;
    Ok(More::Ends {
        number: count,
        time,
        txs,
        blocks,
        state,
    })
}

/// What the bytes after the last newline leave.
fn hold_going(alloc: Global, going: Going, rest: &[u8]) -> Result<More, NoMemory>
    requires { parts_of rest.now ≡ rest.now ∷ [] }
    ensures fits { (kept : List Tx) → going.before ≡ length kept → IfOk result (λ more. Fits kept more) }
    ensures resumes { (kept : List Tx) (digits bytes : List ℕ) → Knows going.form.kind going.hashes digits bytes → IfOk result (λ more. Resumes kept more (walk (going_at kept going digits bytes) (rest.now ∷ []))) }
{
    if rest.len() > MOST_LINE_BYTES {
        return Ok(More::Stopped(ChainFault {
            line: going.line,
            kind: ChainKind::LineTooLong,
        }));
    }
    let held = copy_of(alloc, rest)?;
    Ok(More::Goes { going, held })
}

/// Reads lines that go on with a block.
pub fn read_more(alloc: Global, going: Going, bytes: &[u8]) -> Result<More, NoMemory>
    ensures fits { (kept : List Tx) → going.before ≡ length kept → IfOk result (λ more. Fits kept more) }
    ensures resumes { (kept : List Tx) (digits known : List ℕ) → going.before ≡ length kept → Knows going.form.kind going.hashes digits known → IfOk result (λ more. Resumes kept more (walk (going_at kept going digits known) (parts_of bytes.now))) }
{
    let mut block = going;
    let mut rest = bytes;
    while let Some((line, after)) = split_line(rest) {
        match told_within(alloc, block.len(), line) {
            Ok(Some(tx)) => block.add_tx(tx, line)?,
            Ok(None) => return end_going(alloc, block, line, after),
            Err(StepFault::NoMemory) => return Err(NoMemory),
            Err(StepFault::Kind(kind)) => {
                return Ok(More::Stopped(ChainFault {
                    line: block.line,
                    kind,
                }));
            }
        }
        rest = after;
    }
    hold_going(alloc, block, rest)
}
