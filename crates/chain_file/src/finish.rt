//! What a piece of a block file leaves, once nothing can fail any more.
//!
//! Only here do the transactions that a block had before the piece move from where they are kept.

ghost use Rattle.std.specs.Prelude.{◌≡◌, ◌≤◌, ◌<◌, ◌∷◌, ◌++◌, ℕ, List, [], length, Ok, IfOk, OnErr};
ghost use Rattle.tx_text.specs.Parts.{parts_of};
ghost use Rattle.chain_file.specs.Blocks.{block_of};
ghost use Rattle.chain_file.specs.Steps.{most_time};
ghost use Rattle.chain_file.specs.Chain.{Walked, ended_blocks};
ghost use Rattle.chain_file.specs.Following.{Knows, Reads};
ghost use Rattle.chain_file.specs.Resumed.{Fits, Resumes, going_at, txs_in};
ghost use Rattle.proc_syntax.specs.Limits.{most_transactions};

use crate::block::block_of;
use crate::going::Going;
use crate::reader::{ReadBlocks, State};
use crate::resume::More;
use crate::section::Section;
use crate::standing::{LinePoint, Standing};
use proc_syntax::{Block, Tx};
use rel_base::{List, NoMemory};
use std::alloc::Global;

/// Takes out the transactions of the block that has begun, with more after them. Where memory is wanting, all is as before.
fn take_txs(spot: &mut LinePoint, more: List<Tx>) -> Result<List<Tx>, NoMemory>
    ensures all { IfOk result (λ all. all ≡ txs_in spot.old.place ++ more) }
    ensures err { OnErr result (spot.new ≡ spot.old) }
{
    let LinePoint { line, place } = std::mem::replace(spot, LinePoint::front());
    match place {
        Section::Start | Section::Between { .. } => Ok(more),
        Section::Within {
            form,
            count,
            time,
            mut txs,
        } => {
            let appended = txs.append(more);
            if appended.is_ok() {
                return Ok(txs);
            }
            let place = Section::Within {
                form,
                count,
                time,
                txs,
            };
            *spot = LinePoint { line, place };
            Err(NoMemory)
        }
    }
}

/// The block goes on: it keeps its transactions of the piece too.
#[tactic(auto, using(crate::proofs::Near::going_near))]
fn keep_going(
    alloc: Global,
    spot: &mut LinePoint,
    going: Going,
    held: List<u8>,
) -> Result<ReadBlocks, NoMemory>
    requires { going.before ≡ length (txs_in spot.old.place) }
    ensures reads { (digits bytes : List ℕ) → Knows going.form.kind going.hashes digits bytes → parts_of held ≡ held ∷ [] → IfOk result (λ read. Reads read ([], Ok (going_at (txs_in spot.old.place) going digits bytes, held))) }
    ensures err { OnErr result (spot.new ≡ spot.old) }
{
    let Going {
        form,
        count,
        time,
        line,
        hashes,
        txs,
        ..
    } = going;
    let txs = take_txs(spot, txs)?;
    let place = Section::Within {
        form,
        count,
        time,
        txs,
    };
    let spot = LinePoint { line, place };
    let standing = Standing { spot, hashes };
    Ok(ReadBlocks {
        blocks: List::new(alloc),
        state: State::Open { standing, held },
    })
}

/// Puts a block of these transactions into the first place.
fn put_block(blocks: &mut List<Block>, number: u64, time: u64, txs: List<Tx>)
    requires few { length txs ≤ most_transactions }
    requires place { 0 < length blocks.old }
    requires time { time ≤ most_time }
    ensures { (blank : Block) (following : List Block) → blocks.old ≡ blank ∷ following → blocks.new ≡ ended_blocks (block_of number time txs) ++ following }
{
    match block_of(number, time, txs) {
        Some(block) => {
            let _blank = blocks.replace(0, block);
        }
        None => unreachable!(),
    }
}

/// Moves the transactions that the block had before, where it goes on, or to those of the piece, where it ended. Where memory is
/// wanting, all is as before.
pub fn finish(alloc: Global, spot: &mut LinePoint, more: More) -> Result<ReadBlocks, NoMemory>
    requires { Fits (txs_in spot.old.place) more }
    ensures reads { (meant : Walked) → Resumes (txs_in spot.old.place) more meant → IfOk result (λ read. Reads read meant) }
    ensures err { OnErr result (spot.new ≡ spot.old) }
{
    match more {
        More::Stopped(fault) => Ok(ReadBlocks {
            blocks: List::new(alloc),
            state: State::Stopped(fault),
        }),
        More::Goes { going, held } => keep_going(alloc, spot, going, held),
        More::Ends {
            number,
            time,
            txs,
            mut blocks,
            state,
        } => {
            let all = take_txs(spot, txs)?;
            put_block(&mut blocks, number, time, all);
            Ok(ReadBlocks { blocks, state })
        }
    }
}
