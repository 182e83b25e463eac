// What one caller holds of a lock.
ghost use Rattle.turn_lock.specs.Standing.{Stands};

use crate::rule::View;
use atomic_table::Seat;
use rel_base::Storied;

/// One caller's pass through a lock, with a number that no other pass of the lock has. What it shows to contracts stands
/// in `specs/Passes.antt`: its lock, number and base, the story that it has seen, the entries of its own, whether it has
/// the turn, and for number 0 how many passes were made and how many are left.
#[derive(Drop)]
pub struct Pass<S: Storied> {
    pub(crate) number: u32,
    pub(crate) made: u32,
    pub(crate) seat: Seat<Option<S>, View<S::Base, S::Entry>>,
    ghost stands: { Stands S.actor number made seat },
}
