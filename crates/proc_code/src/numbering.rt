//! Names and their numbers.

ghost use Rattle.std.specs.Prelude.{◌≡◌, [], OnOk, length};
ghost use Rattle.proc_code.specs.Numbers.{number_of_name, number_if, with_name};

use rel_base::{List, Name, NoMemory, Twin};
use std::alloc::Global;
use std::collections::BTreeMap;
use std::marker::Model;

/// Names in the order in which they were met, each once. The number of a name is its place among them, which is found by a look-up.
#[derive(Drop)]
pub struct Numbering {
    names: List<Name>,
    numbers: BTreeMap<Name, usize>,
}

impl Model for Numbering {
    ghost use Rattle.std.specs.Prelude.{List, ℕ};
    ghost use Rattle.proc_code.specs.Numbers.{AreNumbersOf};

    ghost Value = { List (List ℕ) };

    ghost view = { λ numbering. numbering.names };

    ghost invariant = { λ numbering. AreNumbersOf numbering.names numbering.numbers };
}

impl Numbering {
    /// No names.
    pub fn new(alloc: Global) -> Numbering
        ensures { result ≡ [] }
    {
        Numbering {
            names: List::new(alloc),
            numbers: BTreeMap::new(alloc),
        }
    }

    /// The names, by their numbers.
    pub fn names(&self) -> &[Name]
        ensures { result.now ≡ self.now }
    {
        self.names.as_slice()
    }

    /// How many names there are.
    pub fn len(&self) -> usize
        ensures { result ≡ length self.now }
    {
        self.names.len()
    }

    /// The number of a name, where it was met.
    pub fn number(&self, name: &Name) -> Option<usize>
        ensures { result ≡ number_if self.now name.now }
    {
        self.numbers.get(name).copied()
    }

    /// The number of a name, or that of all names where it was not met.
    #[tactic(auto, using(crate::proofs::Numbered::there, crate::proofs::Numbered::not_there))]
    pub fn number_or_len(&self, name: &Name) -> usize
        ensures { result ≡ number_of_name self.now name.now }
    {
        match self.number(name) {
            Some(number) => number,
            None => self.names.len(),
        }
    }

    /// Gives a name the next number, unless it has one.
    pub fn add(&mut self, alloc: Global, name: &Name) -> Result<(), NoMemory>
        ensures { OnOk result (self.new ≡ with_name self.old name.now) }
    {
        if self.numbers.contains_key(name) {
            return Ok(());
        }
        let number = self.names.len();
        let key = name.copy(alloc)?;
        self.names.push(name.copy(alloc)?)?;
        match self.numbers.insert(key, number) {
            Ok(_) => Ok(()),
            Err(_) => {
                let _ = self.names.pop();
                Err(NoMemory)
            }
        }
    }
}
