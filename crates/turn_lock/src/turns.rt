// The calls of the lock, each a few atomic steps of its table.
//
// Why no thread sleeps for ever while the turn is free. A thread lies down only where word 0 is AWAITED at that moment: the
// system compares the word and puts the thread to sleep in one step. The word leaves AWAITED only by a `give`, which then
// wakes a thread that sleeps, if there is one. Who was woken can't know whether others sleep too. So a pass that has once
// decided to sleep either gets the turn as AWAITED, and then its own `give` wakes the next one, or it finds the turn taken,
// and leaves the word as AWAITED before it lies down again, and then the `give` of that turn wakes one. So while a thread
// sleeps, the word is AWAITED, or a `give` that found AWAITED is about to wake one, or a pass that has decided to sleep is
// awake and on its way to the one or the other; each of the three lasts until the next holds. A pass that has not decided
// to sleep gets the turn as TAKEN, and only where the word was FREE, so that it never hides an AWAITED.
ghost use Rattle.std.specs.Prelude.{◌≡◌, ◌≢◌, ℕ, ◌+◌, ◌-◌, ◌<◌, ◌^◌, [], ◌∷◌, ◌++◌, length, Some, IfOk};
ghost use mathlib.Core.List.{IsPrefix};
ghost use Rattle.rel_base.specs.Stories.{entries_of, AddsOwn};
ghost use Rattle.turn_lock.specs.Ledger.{made_by};
ghost use Rattle.turn_lock.specs.Passes.{IsPassOf, pass_number, pass_base, seen, mine, HoldsTurn, HoldsNoTurn, made, left, joined, IsSameHolder, IsSamePass, IsNewPass, Gains};

use crate::lock::TurnLock;
use crate::pass::Pass;
use crate::rule::{Enter, Fork, Leave, Mark, Publish, PutBack, ReadLength, TakeOut};
use atomic_table::Table;
use rel_base::{NoMemory, Storied};
use std::alloc::Global;
use std::hint::spin_loop;
use std::snapshot::Snapshot;
use std::sync::Wait;
use std::thread;

// Word 0 of the table is FREE while no pass has the turn, and else TAKEN, or AWAITED where a thread may sleep until the
// turn ends.
const TURN: usize = 0;

const FREE: u64 = 0;

const TAKEN: u64 = 1;

const AWAITED: u32 = 2;

// Word 1 of the table is the length of the story.
const LENGTH: usize = 1;

// How often a pass looks whether the turn is over before its thread sleeps. A turn takes a few of these looks.
const LOOKS_BEFORE_SLEEP: u32 = 2004;

// Before so many of the last looks the thread lets others run, since the one that has the turn may wait for a processor.
const YIELDS_BEFORE_SLEEP: u32 = 4;

impl<S: Storied> Pass<S> {
    /// The number of the pass. The entries of that number in what the pass has seen are its own.
    pub fn number(&self) -> u32
        ensures number { result ≡ pass_number self.now }
        ensures own { entries_of S.actor (pass_number self.now) (seen self.now) ≡ mine self.now }
    {
        self.number
    }
}

impl<S: Storied> TurnLock<S> {
    /// A lock round a value with an empty story, and its first pass, which has number 0. Where memory runs out the value
    /// is dropped.
    pub fn new(alloc: Global, state: S) -> Result<(TurnLock<S>, Pass<S>), NoMemory>
        requires empty { S.story state ≡ [] }
        ensures pass { IfOk result (λ made. IsNewPass made.0 made.1 0 (S.base state) []) }
    {
        let about = Snapshot::of(&state);
        let mut slots = Vec::new(alloc);
        slots.push(Some(state))?;
        let Ok((table, seat)) = Table::new(alloc, &[0, 0], slots, &about) else {
            return Err(NoMemory);
        };
        let pass = Pass {
            number: 0,
            made: 0,
            seat,
        };
        Ok((TurnLock { table }, pass))
    }

    // Looks until the turn is free, at most as often as it is given: how many looks are left. Another pass may have the turn
    // by then, so it promises nothing.
    fn look_out(&self, looks: u32) -> u32 {
        for left in (0..looks).rev() {
            if self.table.shared.peek(TURN) == FREE {
                return left;
            }
            if left < YIELDS_BEFORE_SLEEP {
                thread::yield_now();
            } else {
                spin_loop();
            }
        }
        0
    }

    /// Begins a turn: the value, whose story begins with all that the pass had seen. It waits while another pass has the
    /// turn, asleep after some looks.
    pub fn take<R: Wait>(&self, rt: &R, pass: &mut Pass<S>) -> S
        requires lock { IsPassOf self.now pass.old }
        requires no_turn { HoldsNoTurn pass.old }
        ensures same { IsSamePass pass.old pass.new }
        ensures turn { HoldsTurn pass.new }
        ensures base { S.base result ≡ pass_base pass.old }
        ensures seen { seen pass.new ≡ S.story result }
        ensures later { IsPrefix (seen pass.old) (S.story result) }
        ensures mine { mine pass.new ≡ mine pass.old }
        ensures own { entries_of S.actor (pass_number pass.old) (S.story result) ≡ mine pass.old }
    {
        let shared = &self.table.shared;
        let mut looks = LOOKS_BEFORE_SLEEP;
        let mut taken = TAKEN;
        for _ in rt.forever() {
            if shared.compare_exchange::<Enter>(&mut pass.seat, TURN, FREE, taken) == FREE {
                shared.load::<ReadLength>(&mut pass.seat, LENGTH);
                shared.load::<TakeOut>(&mut pass.seat, TURN);
                match shared.exchange(&mut pass.seat, 0, None) {
                    Some(state) => return state,
                    None => unreachable!(),
                }
            }
            // a turn is short, so that a few looks mostly find it over
            looks = self.look_out(looks);
            if looks == 0 {
                taken = AWAITED as u64;
                if shared.compare_exchange::<Mark>(&mut pass.seat, TURN, TAKEN, taken) != FREE {
                    shared.park(rt, TURN, AWAITED);
                }
                // who was woken looks again, since to fall asleep at once would cost the next turn's end another call of the system
                looks = LOOKS_BEFORE_SLEEP;
            }
        }
        unreachable!()
    }

    /// Ends a turn: the value goes back, with entries of the pass added to its story.
    pub fn give(&self, pass: &mut Pass<S>, state: S)
        requires lock { IsPassOf self.now pass.old }
        requires turn { HoldsTurn pass.old }
        requires base { S.base state ≡ pass_base pass.old }
        requires story { AddsOwn S.actor (pass_number pass.old) (seen pass.old) (S.story state) }
        requires room { length (S.story state) < 2 ^ 64 }
        ensures same { IsSamePass pass.old pass.new }
        ensures no_turn { HoldsNoTurn pass.new }
        ensures seen { seen pass.new ≡ S.story state }
        ensures mine { Gains (seen pass.old) (S.story state) (mine pass.old) (mine pass.new) }
        ensures no_news { S.story state ≡ seen pass.old → mine pass.new ≡ mine pass.old }
    {
        let shared = &self.table.shared;
        let length = state.story_len();
        shared.exchange(&mut pass.seat, 0, Some(state));
        shared.store::<Publish>(&mut pass.seat, LENGTH, length);
        shared.load::<PutBack>(&mut pass.seat, TURN);
        let ended = shared.swap::<Leave>(&mut pass.seat, TURN, FREE);
        self.wake_next(ended);
    }

    // Wakes a thread that sleeps, where the turn that ended was awaited. Mostly none is, and then the system isn't called.
    fn wake_next(&self, ended: u64) {
        if ended == AWAITED as u64 {
            self.table.shared.wake_one(TURN);
        }
    }

    /// A new pass for another caller, which has seen what this one has. Only the pass with number 0 splits.
    pub fn split(&self, pass: &mut Pass<S>) -> Pass<S>
        requires lock { IsPassOf self.now pass.old }
        requires first { pass_number pass.old ≡ 0 }
        requires no_turn { HoldsNoTurn pass.old }
        requires room { made pass.old < 2 ^ 32 - 1 }
        ensures same { IsSameHolder pass.old pass.new × HoldsNoTurn pass.new }
        ensures stories { (seen pass.new ≡ seen pass.old) × (mine pass.new ≡ mine pass.old) }
        ensures counts { (made pass.new ≡ made pass.old + 1) × (left pass.new ≡ left pass.old + 1) }
        ensures ledger { joined pass.new ≡ joined pass.old }
        ensures fresh { IsNewPass self.now result (made pass.old + 1) (pass_base pass.old) (seen pass.old) }
    {
        let seat = self.table.shared.split_seat::<Fork>(&mut pass.seat);
        pass.made += 1;
        Pass {
            number: pass.made,
            made: 0,
            seat,
        }
    }

    /// Takes back a pass that was split off. What it had seen, the pass with number 0 has seen from now on, and what it had made is noted
    /// under its number.
    pub fn join(&self, pass: &mut Pass<S>, other: Pass<S>)
        requires locks { IsPassOf self.now pass.old × IsPassOf self.now other }
        requires first { pass_number pass.old ≡ 0 }
        requires no_turn { HoldsNoTurn pass.old × HoldsNoTurn other }
        ensures same { IsSameHolder pass.old pass.new × HoldsNoTurn pass.new }
        ensures later { IsPrefix (seen pass.old) (seen pass.new) × IsPrefix (seen other) (seen pass.new) }
        ensures own { (mine pass.new ≡ mine pass.old) × (entries_of S.actor 0 (seen pass.new) ≡ mine pass.new) }
        ensures made { made pass.new ≡ made pass.old }
        ensures left { (0 < left pass.old) × (left pass.new ≡ left pass.old - 1) }
        ensures ledger { joined pass.new ≡ (pass_number other, mine other) ∷ joined pass.old }
    {
        let Pass {
            number: _,
            made: _,
            seat,
        } = other;
        self.table.shared.join_seat::<Fork>(&mut pass.seat, seat);
        self.table.shared.load::<ReadLength>(&mut pass.seat, LENGTH);
    }

    /// Ends the lock, once each pass that was split off was joined: the value, whose story is what the pass has seen. The entries of each
    /// number in it are those that the pass of that number had made when it was joined.
    pub fn close(self, pass: Pass<S>) -> S
        requires lock { IsPassOf self pass }
        requires first { pass_number pass ≡ 0 }
        requires no_turn { HoldsNoTurn pass }
        requires joined { left pass ≡ 0 }
        ensures base { S.base result ≡ pass_base pass }
        ensures story { S.story result ≡ seen pass }
        ensures own { entries_of S.actor 0 (S.story result) ≡ mine pass }
        ensures others { (number : ℕ) → number ≢ 0 → entries_of S.actor number (S.story result) ≡ made_by number (joined pass) }
    {
        let TurnLock { table } = self;
        let Pass {
            number: _,
            made: _,
            seat,
        } = pass;
        let mut closed = table.close_with(seat);
        let value = closed.take(0);
        closed.free();
        match value {
            Some(state) => state,
            None => unreachable!(),
        }
    }
}
