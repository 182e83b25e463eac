//! The lines of a block file, one after another.

ghost use Rattle.std.specs.Prelude.{◌≡◌, ◌<◌, ◌^◌, ◌+◌, Ok, Err, true};
ghost use Rattle.chain_file.specs.Near.{is_near};
ghost use Rattle.chain_file.specs.Chain.{Position, front, take_line};
ghost use Rattle.chain_file.specs.Following.{IsHashed, Stands, StandsAt, TakesLine};

use crate::hash::Hashes;
use crate::section::{Section, Taken};
use crate::standing::{LinePoint, Standing};
use crate::step::{StepFault, step};
use proc_syntax::{Block, ChainFault};
use std::alloc::Global;

impl LinePoint {
    /// The first line.
    pub fn front() -> LinePoint
        ensures line { result.line ≡ front.line }
        ensures place { result.place ≡ front.place }
    {
        LinePoint {
            line: 1,
            place: Section::Start,
        }
    }
}

impl Standing {
    /// Before the first line.
    pub fn front() -> Standing
        ensures { StandsAt result front }
    {
        Standing {
            spot: LinePoint::front(),
            hashes: Hashes::front(),
        }
    }
}

/// Why nothing is known after a line.
#[derive(Clone, Copy, PartialEq, Eq)]
pub enum LineStop {
    /// Memory ran out.
    NoMemory,
    /// The line has a fault.
    Fault(ChainFault),
}

/// Takes a line into the hash of its block.
fn hash_line(hashes: &mut Hashes, taken: &Taken, text: &[u8])
    ensures { IsHashed hashes.old hashes.new taken.now.place taken.now.ended text.now }
{
    match (&taken.ended, &taken.place) {
        (Some(_), place) => hashes.end(place.kind(), text),
        (None, Section::Within { form, .. }) => hashes.add(form.kind, text),
        (None, _) => {}
    }
}

/// Takes a line: what is known after it, and the block that it ended.
#[tactic(auto, using(crate::proofs::Near::near_step, crate::proofs::Near::near_low, crate::proofs::Near::near_room))]
pub fn take_line(
    alloc: Global,
    spot: LinePoint,
    hashes: &mut Hashes,
    text: &[u8],
) -> Result<(LinePoint, Option<Block>), LineStop>
    ensures { (at : Position) → Stands spot hashes.old at → TakesLine result hashes.new (take_line at text.now) }
{
    let LinePoint { line, place } = spot;
    match step(alloc, place, &hashes.digits, text) {
        Ok(taken) => {
            hash_line(hashes, &taken, text);
            let Taken { place, ended } = taken;
            let line = line + 1;
            Ok((LinePoint { line, place }, ended))
        }
        Err(StepFault::NoMemory) => Err(LineStop::NoMemory),
        Err(StepFault::Kind(kind)) => Err(LineStop::Fault(ChainFault { line, kind })),
    }
}
