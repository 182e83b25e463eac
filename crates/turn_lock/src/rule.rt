// What a pass knows, the rule of the table, and the nine kinds of atomic step.
use atomic_table::{Join, Play, Split, TableRule};
use rel_base::Storied;
use std::collections::LinkedList;
use std::snapshot::Snapshot;

/// Where a pass stands in its turn.
pub enum Stage {
    /// It has no turn.
    Idle,
    /// It has the turn, and has not looked at the length since.
    Entered,
    /// It has the turn and has seen the whole story, and the value is in the slot.
    Ready,
    /// The same, and the value is out with it.
    Out,
}

/// What a pass knows. It is for proofs alone: no value of it is ever made.
pub struct View<B, E> {
    /// The pass was not joined.
    pub live: bool,
    /// The pass's number, which is its place among all views.
    pub number: u32,
    /// The base of the lock's value, `None` where the pass was joined.
    pub base: Option<B>,
    /// A story that the value had.
    pub seen: LinkedList<E>,
    /// What a pass that was just joined had seen.
    pub told: LinkedList<E>,
    /// The entries of this pass.
    pub mine: LinkedList<E>,
    /// Where the pass stands in its turn.
    pub stage: Stage,
    /// A pass was joined, and the length was not read since.
    pub joining: bool,
    /// Of number 0: how many passes it has split off.
    pub made: u32,
    /// Of number 0: how many of these it had not joined when it last looked.
    pub left: u32,
    /// Of number 0: the number and the entries of each pass that it has joined.
    pub joined: LinkedList<(u32, LinkedList<E>)>,
}

/// The table of a lock: word 0 is not 0 while a pass has the turn, word 1 is the length of the story, and the one slot
/// has the value.
pub struct TurnTable;

impl<S: Storied> TableRule<Option<S>, View<S::Base, S::Entry>, Snapshot<S>> for TurnTable {
    ghost use Rattle.turn_lock.specs.Rule.{TurnRule};
    ghost use Rattle.turn_lock.specs.Views.{first_view};

    ghost holds = { λ k. TurnRule S.base S.story S.actor };

    ghost first = { λ k. first_view (S.base k.value) };
}

/// Kind 1: word 0 goes from 0 to another number, which gets the turn, or stays as it is.
pub struct Enter;

impl<S: Storied> Play<Option<S>, View<S::Base, S::Entry>> for Enter {
    ghost use Rattle.turn_lock.specs.Steps.{Entering};

    ghost then = { λ _ before found after. Entering before found after };
}

/// Kind 2: the value leaves the slot, on a load of word 0.
pub struct TakeOut;

impl<S: Storied> Play<Option<S>, View<S::Base, S::Entry>> for TakeOut {
    ghost use Rattle.turn_lock.specs.Steps.{TakingOut};

    ghost then = { λ _ before _ after. TakingOut S.base S.story before after };
}

/// Kind 3: the value comes back into the slot, on a load of word 0.
pub struct PutBack;

impl<S: Storied> Play<Option<S>, View<S::Base, S::Entry>> for PutBack {
    ghost use Rattle.turn_lock.specs.Steps.{PuttingBack};

    ghost then = { λ _ before _ after. PuttingBack before after };
}

/// Kind 4: a store of the story's length.
pub struct Publish;

impl<S: Storied> Play<Option<S>, View<S::Base, S::Entry>> for Publish {
    ghost use Rattle.turn_lock.specs.Steps.{Publishing};

    ghost then = { λ _ before _ after. Publishing S.story before after };
}

/// Kind 5: word 0 goes back to 0, which ends the turn.
pub struct Leave;

impl<S: Storied> Play<Option<S>, View<S::Base, S::Entry>> for Leave {
    ghost use Rattle.turn_lock.specs.Steps.{Leaving};

    ghost then = { λ _ before _ after. Leaving before after };
}

/// Kind 6: a load of the length, which shows the whole story.
pub struct ReadLength;

impl<S: Storied> Play<Option<S>, View<S::Base, S::Entry>> for ReadLength {
    ghost use Rattle.turn_lock.specs.Steps.{ReadingLength};

    ghost then = { λ _ before found after. ReadingLength S.actor before found after };
}

/// Kind 9: word 0 goes from 1 to 2, which says that a thread may sleep until the turn ends, or stays as it is.
pub struct Mark;

impl<S: Storied> Play<Option<S>, View<S::Base, S::Entry>> for Mark {
    ghost use Rattle.turn_lock.specs.Steps.{Marking};

    ghost then = { λ _ before _ after. Marking before after };
}

/// Kinds 7 and 8: a pass is split off, and joined.
pub struct Fork;

impl<B, E> Split<View<B, E>> for Fork {
    ghost use Rattle.turn_lock.specs.Views.{split_view, new_view};

    ghost left = { split_view };

    ghost right = { new_view };
}

impl<B, E> Join<View<B, E>> for Fork {
    ghost use Rattle.turn_lock.specs.Views.{joined_view, spent_view};

    ghost both = { joined_view };

    ghost spent = { spent_view };
}
