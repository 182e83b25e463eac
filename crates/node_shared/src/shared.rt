//! The shared node and its passes.

ghost use Rattle.std.specs.Prelude.{◌≡◌, ◌≢◌, ◌+◌, ◌-◌, ◌<◌, ◌^◌, [], ◌∷◌, IfOk, length, ℕ};
ghost use mathlib.Core.List.{IsPrefix};
ghost use Rattle.rel_base.specs.Stories.{AddsOwn};
ghost use Rattle.schedule_laws.specs.Stable.{entries_by};
ghost use Rattle.turn_lock.specs.Ledger.{made_by};
ghost use Rattle.turn_lock.specs.Passes.{Gains, HoldsNoTurn, HoldsTurn, IsNewPass, IsPassOf, IsSameHolder, IsSamePass, joined, left, made, mine, pass_base, pass_number, seen};

use crate::held_node::HeldNode;
use node_core::NodeCore;
use rel_base::NoMemory;
use row_sets::Versions;
use std::alloc::Global;
use std::sync::Wait;
use turn_lock::{Pass, TurnLock};

/// A node that threads share by reference, each with a pass of its own.
#[derive(Drop)]
pub struct SharedNode<V: Versions> {
    pub(crate) lock: TurnLock<HeldNode<V>>,
    pub(crate) alloc: Global,
}

/// One caller's pass to a node.
pub type NodePass<V> = Pass<HeldNode<V>>;

impl<V: Versions> SharedNode<V> {
    /// A node to which nothing has happened, shared, and its first pass, which is the processor's. Where memory runs out the node is
    /// dropped.
    pub fn new(alloc: Global, core: NodeCore<V>) -> Result<(SharedNode<V>, NodePass<V>), NoMemory>
        requires empty { core.journal ≡ [] }
        ensures pass { IfOk result (λ made. IsNewPass made.0.lock made.1 0 core.app []) }
    {
        let (lock, pass) = TurnLock::new(alloc, HeldNode::new(alloc, core)?)?;
        Ok((SharedNode { lock, alloc }, pass))
    }

    // Begins a turn: the node, whose journal begins with all that the pass had seen.
    pub(crate) fn take<R: Wait>(&self, rt: &R, pass: &mut NodePass<V>) -> Box<NodeCore<V>>
        requires lock { IsPassOf self.now.lock pass.old }
        requires no_turn { HoldsNoTurn pass.old }
        ensures same { IsSamePass pass.old pass.new }
        ensures turn { HoldsTurn pass.new }
        ensures base { result.value.app ≡ pass_base pass.old }
        ensures seen { seen pass.new ≡ result.value.journal }
        ensures later { IsPrefix (seen pass.old) result.value.journal }
        ensures mine { mine pass.new ≡ mine pass.old }
        ensures own { entries_by (pass_number pass.old) result.value.journal ≡ mine pass.old }
    {
        self.lock.take(rt, pass).into_node()
    }

    // Ends a turn: the node goes back, with entries of the pass added to its journal.
    pub(crate) fn give(&self, pass: &mut NodePass<V>, node: Box<NodeCore<V>>)
        requires lock { IsPassOf self.now.lock pass.old }
        requires turn { HoldsTurn pass.old }
        requires base { node.value.app ≡ pass_base pass.old }
        requires story { AddsOwn (λ entry. entry.actor) (pass_number pass.old) (seen pass.old) node.value.journal }
        requires room { length node.value.journal < 2 ^ 64 }
        ensures same { IsSamePass pass.old pass.new }
        ensures no_turn { HoldsNoTurn pass.new }
        ensures seen { seen pass.new ≡ node.value.journal }
        ensures mine { Gains (seen pass.old) node.value.journal (mine pass.old) (mine pass.new) }
        ensures no_news { node.value.journal ≡ seen pass.old → mine pass.new ≡ mine pass.old }
    {
        self.lock.give(pass, HeldNode::of(node));
    }

    /// A new pass for another caller, which has seen what this one has. Only the processor's pass splits.
    pub fn split(&self, pass: &mut NodePass<V>) -> NodePass<V>
        requires lock { IsPassOf self.now.lock pass.old }
        requires processor { pass_number pass.old ≡ 0 }
        requires no_turn { HoldsNoTurn pass.old }
        requires room { made pass.old < 2 ^ 32 - 1 }
        ensures same { IsSameHolder pass.old pass.new × HoldsNoTurn pass.new }
        ensures stories { (seen pass.new ≡ seen pass.old) × (mine pass.new ≡ mine pass.old) }
        ensures counts { (made pass.new ≡ made pass.old + 1) × (left pass.new ≡ left pass.old + 1) }
        ensures ledger { joined pass.new ≡ joined pass.old }
        ensures fresh { IsNewPass self.now.lock result (made pass.old + 1) (pass_base pass.old) (seen pass.old) }
    {
        self.lock.split(pass)
    }

    /// Takes back a pass that was split off. What it had seen, the processor's pass has seen from now on, and what it had made is noted
    /// under its number.
    pub fn join(&self, pass: &mut NodePass<V>, other: NodePass<V>)
        requires locks { IsPassOf self.now.lock pass.old × IsPassOf self.now.lock other }
        requires processor { pass_number pass.old ≡ 0 }
        requires no_turn { HoldsNoTurn pass.old × HoldsNoTurn other }
        ensures same { IsSameHolder pass.old pass.new × HoldsNoTurn pass.new }
        ensures later { IsPrefix (seen pass.old) (seen pass.new) × IsPrefix (seen other) (seen pass.new) }
        ensures own { (mine pass.new ≡ mine pass.old) × (entries_by 0 (seen pass.new) ≡ mine pass.new) }
        ensures made { made pass.new ≡ made pass.old }
        ensures left { (0 < left pass.old) × (left pass.new ≡ left pass.old - 1) }
        ensures ledger { joined pass.new ≡ (pass_number other, mine other) ∷ joined pass.old }
    {
        self.lock.join(pass, other);
    }

    /// Ends the sharing, once each pass that was split off was joined: the node, whose journal is what the pass has seen. The entries of each
    /// actor in it are those that its pass had made when it was joined.
    pub fn close(self, pass: NodePass<V>) -> NodeCore<V>
        requires lock { IsPassOf self.lock pass }
        requires processor { pass_number pass ≡ 0 }
        requires no_turn { HoldsNoTurn pass }
        requires joined { left pass ≡ 0 }
        ensures node { result ≡ record { app = pass_base pass; journal = seen pass } }
        ensures own { entries_by 0 (seen pass) ≡ mine pass }
        ensures others { (number : ℕ) → number ≢ 0 → entries_by number (seen pass) ≡ made_by number (joined pass) }
    {
        Box::into_inner(self.lock.close(pass).into_node())
    }
}
