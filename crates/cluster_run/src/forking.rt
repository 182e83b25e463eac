//! Passes for executors are split off, and joined again.

ghost use Rattle.std.specs.Prelude.{◌≡◌, ◌+◌, ◌-◌, ◌<◌, ◌^◌, ◌∷◌, None};
ghost use Rattle.cluster_run.specs.Standing.{KeepsBlocks, Stands};
ghost use Rattle.turn_lock.specs.Passes.{IsIdle, joined, left, made, mine, pass_number};

use node_shared::{NodePass, SharedNode};
use row_sets::Versions;
use std::sync::Wait;

/// A pass for an executor, which holds no job.
pub fn split_off<V: Versions>(node: &SharedNode<V>, pass: &mut NodePass<V>) -> NodePass<V>
    requires stands { Stands node.now.lock pass.old None }
    requires processor { pass_number pass.old ≡ 0 }
    requires room { made pass.old < 2 ^ 32 - 1 }
    ensures keeps { KeepsBlocks pass.old pass.new }
    ensures counts { (made pass.new ≡ made pass.old + 1) × (left pass.new ≡ left pass.old + 1) }
    ensures ledger { joined pass.new ≡ joined pass.old }
    ensures other { Stands node.now.lock result None }
{
    let other = node.split(pass);
    let _ = other.number();
    other
}

/// Takes a pass back that was split off.
pub fn take_back<V: Versions, R: Wait>(
    rt: &R,
    node: &SharedNode<V>,
    pass: &mut NodePass<V>,
    other: NodePass<V>,
)
    requires stands { Stands node.now.lock pass.old None }
    requires processor { pass_number pass.old ≡ 0 }
    requires other { IsIdle node.now.lock other }
    ensures keeps { KeepsBlocks pass.old pass.new }
    ensures made { made pass.new ≡ made pass.old }
    ensures left { (0 < left pass.old) × (left pass.new ≡ left pass.old - 1) }
    ensures ledger { joined pass.new ≡ (pass_number other, mine other) ∷ joined pass.old }
{
    node.join(pass, other);
    // a look, so that the pass knows that what it has seen is a journal of steps
    node.height(rt, pass);
}
