//! A block that began before the bytes that are read.

ghost use Rattle.std.specs.Prelude.{◌≡◌, ◌+◌, ◌<◌, ◌∷◌, ◌++◌, ℕ, List, [], true, length, OnOk};
ghost use Rattle.tx_text.specs.Parts.{line_text};
ghost use Rattle.chain_file.specs.Following.{Knows};
ghost use Rattle.chain_file.specs.Near.{is_within_near};
ghost use Rattle.proc_syntax.specs.Limits.{most_transactions};

use crate::form::FileForm;
use crate::hash::Hashes;
use proc_syntax::Tx;
use rel_base::{List, NoMemory};

/// A block that began before some bytes, as far as lines of these go on with it. The transactions that it had before stay where
/// they are kept.
#[derive(Drop)]
pub struct Going {
    pub form: FileForm,
    /// How many blocks ended before it.
    pub count: u64,
    pub time: u64,
    /// How many transactions it had before.
    pub before: usize,
    /// The next line's number, from 1.
    pub line: u64,
    pub hashes: Hashes,
    /// Its transactions in the bytes.
    pub txs: List<Tx>,
    ghost near: { is_within_near line count time (before + length txs) ≡ true },
}

impl Going {
    /// How many transactions the block has so far.
    #[tactic(auto, using(crate::proofs::Near::going_len))]
    pub fn len(&self) -> usize
        ensures { result ≡ self.now.before + length self.now.txs }
    {
        self.before + self.txs.len()
    }

    /// Goes on after a line more, which has this transaction.
    #[tactic(auto, using(crate::proofs::Near::going_low, crate::proofs::Near::going_more))]
    pub fn add_tx(&mut self, tx: Tx, text: &[u8]) -> Result<(), NoMemory>
        requires { self.old.before + length self.old.txs < most_transactions }
        ensures place { OnOk result ((self.new.form ≡ self.old.form) × (self.new.count ≡ self.old.count) × (self.new.time ≡ self.old.time) × (self.new.before ≡ self.old.before)) }
        ensures line { OnOk result (self.new.line ≡ self.old.line + 1) }
        ensures txs { OnOk result (self.new.txs ≡ self.old.txs ++ tx ∷ []) }
        ensures hashes { (digits bytes : List ℕ) → Knows self.old.form.kind self.old.hashes digits bytes → OnOk result (Knows self.old.form.kind self.new.hashes digits (bytes ++ line_text text.now)) }
    {
        self.txs.push(tx)?;
        self.line += 1;
        self.hashes.add(self.form.kind, text);
        Ok(())
    }
}
