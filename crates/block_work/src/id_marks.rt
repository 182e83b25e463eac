//! Marks of ids, which tell of most ids that they were not put in.

ghost use Rattle.std.specs.Prelude.{◌≡◌, ◌<◌, ◌/◌, ◌%◌, ◌^◌, IfOk, length, true};
ghost use Rattle.block_work.specs.Marks.{KeepsMarks, has_mark, hash_of};

use rel_base::{Id, NoMemory};
use rw_graph::word::{is_one, with_one};
use std::alloc::Global;
use std::hash::{FoldHasher, Hasher};

/// How many words of marks there are at the least, once there are marks.
const FEWEST: usize = 64;

/// Marks of ids: a bit for each, at a place that a hash of the id tells. An id that was put in has its mark. Most of the others have none,
/// but one may have the mark of another.
#[derive(Drop)]
pub struct IdMarks {
    pub words: Vec<u64>,
}

/// A hash of an id.
fn hash_of(id: &Id) -> u64
    ensures { result ≡ hash_of id.now }
{
    let mut hasher = FoldHasher::default();
    hasher.write(id.as_str().as_bytes());
    hasher.finish()
}

/// The number of the word, among some, that has the mark of a hash.
fn word_of(hash: u64, count: usize) -> usize
    requires { 0 < count }
    ensures number { result ≡ hash % count }
    ensures within { result < count }
{
    (hash % count as u64) as usize
}

/// The bit of its word that is the mark of a hash.
fn bit_of(hash: u64) -> u32
    ensures bit { result ≡ hash / 2 ^ 58 }
    ensures within { result < 64 }
{
    (hash >> 58) as u32
}

impl IdMarks {
    /// No marks.
    pub fn new(alloc: Global) -> IdMarks {
        IdMarks {
            words: Vec::new(alloc),
        }
    }

    /// Room for the marks of twice so many ids, of which none is set.
    pub fn for_ids(alloc: Global, count: usize) -> Result<IdMarks, NoMemory>
        ensures { IfOk result (λ made. 0 < length made.words.items) }
    {
        let words = vec![in alloc; 0; FEWEST + count / 4]?;
        Ok(IdMarks { words })
    }

    /// Whether there are eight marks or more for each of so many ids, so that few have the mark of another.
    pub fn are_enough(&self, count: usize) -> bool
        ensures { result ≡ true → 0 < length self.now.words.items }
    {
        count / 8 < self.words.len()
    }

    /// Whether an id has its mark.
    pub fn has(&self, id: &Id) -> bool
        ensures { result ≡ has_mark self.now.words.items id.now }
    {
        let words = self.words.as_slice();
        if words.is_empty() {
            return false;
        }
        let hash = hash_of(id);
        is_one(words[word_of(hash, words.len())], bit_of(hash))
    }

    /// Sets the mark of an id.
    pub fn put(&mut self, id: &Id)
        requires { 0 < length self.old.words.items }
        ensures own { has_mark self.new.words.items id.now ≡ true }
        ensures kept { KeepsMarks self.old.words.items self.new.words.items }
        ensures len { length self.new.words.items ≡ length self.old.words.items }
    {
        let hash = hash_of(id);
        let number = word_of(hash, self.words.len());
        self.words[number] = with_one(self.words[number], bit_of(hash));
    }
}
