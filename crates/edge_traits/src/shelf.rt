//! Files that a program reads by their names.

ghost use Rattle.std.specs.Prelude.{◌≡◌, ◌≤◌, length, IfOk, OnOk, OnErr, IfSome, Option, Ok};
ghost use Rattle.edge_traits.specs.Causes.{Rose, Counts, NoneFell, Leave, Keeps};
ghost use Rattle.edge_traits.specs.Shelf.{Files, IsPiece};

/// A read that failed.
#[derive(Clone, Copy, PartialEq, Eq)]
pub struct ShelfFailed;

/// Files by their names.
///
/// Contracts see three things of a shelf, none of which is there when the program runs. What a call that is generic in its
/// shelf says of them, it says of each shelf that there is: of real files too, although no contract can say what those hold.
pub trait Shelf {
    /// What stands in the files, if the shelf tells it. It never changes.
    ghost told: { Self → Option Files };

    /// How often reading each name has failed. No count ever falls.
    ghost faults: { Self → Counts };

    /// Which bytes may be asked for: of a name, from a place on, so many.
    ///
    /// Every shelf of this crate lets all bytes of each name be read, so whoever passes one of them has nothing to show. The
    /// leave matters to a call that is generic in its shelf. It is proved for all shelves, among them those that let nothing be
    /// read but what its own `requires` names; so it can read nothing else, and drop what it read, without the check refusing
    /// it. Hence a `requires` on `may_read` at such a call, though written as a demand, is a promise: nothing but these bytes of these
    /// files is asked for. What may be asked for once may be asked for again, so how often it is asked for is not said.
    ghost may_read: { Self → Leave };

    /// Puts bytes of the file `name` from the byte `at` on (counted from 0) into the start of `buf`, and answers how many.
    /// For a buffer with room, `Ok(0)` is the end of the file. A buffer without room gets `Ok(0)`.
    fn read_at(&mut self, name: &str, at: u64, buf: &mut [u8]) -> Result<usize, ShelfFailed>
        requires allowed { may_read self.old name.now at (length buf.old) }
        ensures allowed { Keeps (may_read self.old) (may_read self.new) }

        // What is read is what the shelf tells, if it tells, and telling never changes.
        ensures told { told self.new ≡ told self.old }
        ensures bound { IfOk result (λ count. count ≤ length buf.new) }
        ensures bytes { IfOk result (λ count. IfSome (told self.old) (λ files. IsPiece (files name.now) at count buf.new)) }
        ensures empty { length buf.old ≡ 0 → result ≡ Ok 0 }

        // A read that fails raises the count of its name, and one that does not fail leaves each count as it was.
        ensures later { NoneFell (faults self.old) (faults self.new) }
        ensures cause { OnErr result (Rose (faults self.old name.now) (faults self.new name.now)) }
        ensures quiet { OnOk result (faults self.new ≡ faults self.old) };
}
