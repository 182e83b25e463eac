//! What the actors of a schedule hold between two lines.

ghost use Rattle.std.specs.Prelude.{◌≡◌, ◌<◌, IfOk, None, Some, length};
ghost use Rattle.std.specs.Option.{is_some};
ghost use Rattle.schedule_sim.specs.InHands.{AreEmpty, IsPut, hand_of};

use crate::read::MOST_ACTORS;
use node_core::HeldJob;
use rel_base::{List, NoMemory};
use std::alloc::Global;

/// The job of each actor, if it holds one, at the place of its number. Those that hold jobs have numbers from 1 to 16, so that the first
/// place stays empty.
pub type Hands = List<Option<HeldJob>>;

/// Hands that hold nothing.
pub fn empty_hands(alloc: Global) -> Result<Hands, NoMemory>
    ensures { IfOk result AreEmpty }
{
    let mut hands = List::new(alloc);
    for _ in 0..MOST_ACTORS + 1 {
        hands.push(None)?;
    }
    Ok(hands)
}

/// Whether an actor holds a job.
pub fn holds(hands: &Hands, actor: u32) -> bool
    ensures { result ≡ is_some (hand_of hands.now actor) }
{
    match hands.get(actor as usize) {
        None => false,
        Some(hand) => hand.is_some(),
    }
}

/// Takes the job out of an actor's hand.
pub fn take_job(hands: &mut Hands, actor: u32) -> Option<HeldJob>
    requires { actor < length hands.old }
    ensures work { result ≡ hand_of hands.old actor }
    ensures hands { IsPut hands.old actor None hands.new }
{
    hands.replace(actor as usize, None)
}

/// Puts a job into an actor's hand.
pub fn put_job(hands: &mut Hands, actor: u32, work: HeldJob)
    requires { actor < length hands.old }
    ensures { IsPut hands.old actor (Some work) hands.new }
{
    hands.replace(actor as usize, Some(work));
}
