//! The lines of schedules.

ghost use Rattle.std.specs.Prelude.{◌≡◌};
ghost use Rattle.schedule_sim.specs.Steps.{actor_of, claim_of, number_of, pick_of, step_of, step_with};

use crate::step::Step;
use literals::number::read_number;
use node_model::Pick;
use tx_text::field::{split_word, strip};

/// The greatest number of an actor that claims jobs.
pub const MOST_ACTORS: u32 = 16;

/// The number that bytes spell, all of them.
fn number_of(bytes: &[u8]) -> Option<u64>
    ensures { result ≡ number_of bytes.now }
{
    let (number, rest) = read_number(bytes)?;
    if rest.is_empty() { Some(number) } else { None }
}

/// The actor that bytes spell.
fn actor_of(bytes: &[u8]) -> Option<u32>
    ensures { result ≡ actor_of bytes.now }
{
    let number = number_of(bytes)?;
    if number >= 1 && number <= u64::from(MOST_ACTORS) {
        Some(number as u32)
    } else {
        None
    }
}

/// What a claim asks for.
fn pick_of(bytes: &[u8]) -> Option<Pick>
    ensures { result ≡ pick_of bytes.now }
{
    if bytes == b"due".as_slice() {
        return Some(Pick::Due);
    }
    let place = number_of(bytes)?;
    Some(Pick::Nth(place))
}

/// A claim, from its actor on.
fn claim_of(bytes: &[u8]) -> Option<Step>
    ensures { result ≡ claim_of bytes.now }
{
    let (actor, rest) = split_word(bytes);
    let actor = actor_of(actor)?;
    let picked = strip(b" ", rest)?;
    let pick = pick_of(picked)?;
    Some(Step::Claim { actor, pick })
}

/// A step with arguments, by its word and what stands after the space.
fn step_with(name: &[u8], rest: &[u8]) -> Option<Step>
    ensures { result ≡ step_with name.now rest.now }
{
    if name == b"arrive".as_slice() {
        number_of(rest).map(Step::Arrive)
    } else if name == b"claim".as_slice() {
        claim_of(rest)
    } else if name == b"read".as_slice() {
        actor_of(rest).map(Step::Read)
    } else if name == b"finish".as_slice() {
        actor_of(rest).map(Step::Finish)
    } else if name == b"release".as_slice() {
        actor_of(rest).map(Step::Release)
    } else {
        None
    }
}

/// The step that a line spells.
pub fn step_of(line: &[u8]) -> Option<Step>
    ensures { result ≡ step_of line.now }
{
    if line == b"deliver".as_slice() {
        return Some(Step::Deliver);
    }
    if line == b"commit".as_slice() {
        return Some(Step::Commit);
    }
    if line == b"seal".as_slice() {
        return Some(Step::Seal);
    }
    let (name, rest) = split_word(line);
    let rest = strip(b" ", rest)?;
    step_with(name, rest)
}
