//! What a program writes to.

ghost use Rattle.std.specs.Prelude.{◌≡◌, ◌≤◌, ◌<◌, List, ℕ, length, take, IfOk, OnOk, OnErr, Option, Ok};
ghost use Rattle.edge_traits.specs.Causes.{Rose};
ghost use Rattle.edge_traits.specs.Sink.{appended};

/// A write that failed.
#[derive(Clone, Copy, Debug, PartialEq, Eq)]
pub struct SinkFailed;

/// What takes bytes, one after another.
pub trait Sink {
    /// All bytes that were taken, if the sink tells them.
    ghost written: { Self → Option (List ℕ) };

    /// How often writing has failed. The count never falls.
    ghost faults: { Self → ℕ };

    /// Takes some of the first bytes, and answers how many: at least one, unless there are none. A call that fails took nothing.
    fn write(&mut self, bytes: &[u8]) -> Result<usize, SinkFailed>
        ensures bound { IfOk result (λ count. count ≤ length bytes.now) }
        ensures some { 0 < length bytes.now → IfOk result (λ count. 0 < count) }
        ensures empty { length bytes.now ≡ 0 → result ≡ Ok 0 }
        ensures appended { IfOk result (λ count. written self.new ≡ appended (written self.old) (take count bytes.now)) }

        // A write that fails raises the count, and one that does not fail leaves it as it was.
        ensures unchanged { OnErr result (written self.new ≡ written self.old) }
        ensures later { faults self.old ≤ faults self.new }
        ensures cause { OnErr result (Rose (faults self.old) (faults self.new)) }
        ensures quiet { OnOk result (faults self.new ≡ faults self.old) };
}
