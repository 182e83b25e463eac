//! Shelves in memory, which tell their files.

ghost use Rattle.std.specs.Prelude.{⊤, List, ℕ, ◌≡◌, ◌≤◌, ◌<◌, ◌↔◌, length, min, IfOk, OnOk, OnErr, IfSome, Some, None, IsErr, IsTrue, Ok, option_copied, nat_eq, drop, cond, is_err};
ghost use Rattle.std.specs.List.{list_any};
ghost use Rattle.edge_traits.specs.Causes.{Rose, raised};
ghost use Rattle.edge_traits.specs.Memory.{held, files_of, is_next_listed, at_most, fresh_files, read_fails};
ghost use Rattle.edge_traits.specs.Shelf.{IsPiece};

use crate::shelf::{Shelf, ShelfFailed};
use rel_base::{List, Name};
use std::marker::Model;

// The bytes of the first file of this name.
fn find<'a>(files: &'a [(Name, List<u8>)], name: &str) -> Option<&'a [u8]>
    ensures { option_copied result ≡ held files.now name.now }
{
    for file in files {
        if file.0.as_str() == name {
            return Some(file.1.as_slice());
        }
    }
    None
}

// Copies bytes of the file from `at` on, as many as there are, but at most `size`.
fn copy_piece(file: &[u8], at: u64, buf: &mut [u8], size: usize) -> usize
    requires fits { size ≤ length buf.old }
    requires some { 0 < length buf.old → 0 < size }
    ensures bound { result ≤ length buf.new }
    ensures piece { IsPiece file.now at result buf.new }
    ensures most { result ≡ min size (length (drop at file.now)) }
{
    if at >= file.len() as u64 {
        return 0;
    }
    let rest = &file[at as usize..];
    let count = std::cmp::min(rest.len(), size);
    buf[..count].copy_from_slice(&rest[..count]);
    count
}

// Whether a call stands in the list of those that are to fail.
pub(crate) fn is_listed(fails: &[u64], call: u64) -> bool
    ensures { result ≡ list_any (nat_eq call) fails.now }
{
    fails.iter().any(|number| call == *number)
}

// How many bytes one call asks for, where its calls may be bounded.
pub(crate) fn at_most(most: Option<usize>, size: usize) -> usize
    ensures is { result ≡ at_most most size }
    ensures fits { result ≤ size }
    ensures some { IfSome most (λ most. 1 ≤ most) → 0 < size → 0 < result }
{
    match most {
        Some(most) => std::cmp::min(most, size),
        None => size,
    }
}

/// A shelf in memory, which tells its files and fails where it is set to.
///
/// Calls with room in their buffer are counted from 1. Such a call fails exactly where its number is listed or there is no
/// file of its name, and each other one gives as many bytes as the buffer, the file and the bound of a slow shelf allow. One
/// count of failed calls stands for every name.
#[derive(Drop)]
pub struct MemShelf {
    files: List<(Name, List<u8>)>,
    fails: List<u64>,
    most: Option<usize>,
    calls: u64,
    failed: u64,
}

impl Model for MemShelf {
    ghost use Rattle.std.specs.Prelude.{◌≤◌, IfSome};
    ghost use Rattle.edge_traits.specs.Memory.{MemFiles};

    ghost Value = { MemFiles };

    ghost view = { λ shelf. record { files = shelf.files; fails = shelf.fails; most = shelf.most; calls = shelf.calls; failed = shelf.failed } };

    ghost invariant = { λ shelf. IfSome shelf.most (λ most. 1 ≤ most) };
}

impl MemShelf {
    /// A shelf of files with their names, and the numbers of the calls that are to fail. The first of two files of one name
    /// counts.
    pub fn new(files: List<(Name, List<u8>)>, fails: List<u64>) -> MemShelf
        ensures { result ≡ fresh_files files fails None }
    {
        MemShelf {
            files,
            fails,
            most: None,
            calls: 0,
            failed: 0,
        }
    }

    /// A shelf as that of `new`, of which one call gives at most `most` bytes, as a real file may. The bound is at least 1,
    /// since to give no byte tells that the file ends. The call itself never fails.
    pub fn slow(files: List<(Name, List<u8>)>, fails: List<u64>, most: usize) -> MemShelf
        requires { 1 ≤ most }
        ensures { result ≡ fresh_files files fails (Some most) }
    {
        MemShelf {
            files,
            fails,
            most: Some(most),
            calls: 0,
            failed: 0,
        }
    }

    // Counts the next call, and answers whether it is listed.
    fn count_call(&mut self) -> bool
        ensures files { self.new.files ≡ self.old.files }
        ensures fails { self.new.fails ≡ self.old.fails }
        ensures most { self.new.most ≡ self.old.most }
        ensures calls { self.new.calls ≡ raised self.old.calls }
        ensures failed { self.new.failed ≡ self.old.failed }
        ensures listed { result ≡ is_next_listed self.old.fails self.old.calls }
    {
        self.calls = self.calls.saturating_add(1);
        is_listed(self.fails.as_slice(), self.calls)
    }
}

impl Shelf for MemShelf {
    ghost told = { λ shelf. Some (files_of shelf.files) };

    ghost faults = { λ shelf name. shelf.failed };

    ghost may_read = { λ shelf name at size. ⊤ };

    fn read_at(&mut self, name: &str, at: u64, buf: &mut [u8]) -> Result<usize, ShelfFailed>
        ensures allowed { (name : List ℕ) (at size : ℕ) → ⊤ → ⊤ }
        ensures told { self.new.files ≡ self.old.files }
        ensures bound { IfOk result (λ count. count ≤ length buf.new) }
        ensures bytes { IfOk result (λ count. IsPiece (files_of self.old.files name.now) at count buf.new) }
        ensures empty { length buf.old ≡ 0 → result ≡ Ok 0 }
        ensures later { self.old.failed ≤ self.new.failed }
        ensures cause { OnErr result (Rose self.old.failed self.new.failed) }
        ensures quiet { OnOk result (self.new.failed ≡ self.old.failed) }

        // What a shelf in memory promises beyond the trait: which calls fail, and that the others read all that fits within its bound.
        ensures fails { 0 < length buf.old → (IsErr result ↔ IsTrue (read_fails self.old name.now)) }
        ensures most { IfOk result (λ count. count ≡ min (at_most self.old.most (length buf.old)) (length (drop at (files_of self.old.files name.now)))) }
        ensures calls { 0 < length buf.old → self.new.calls ≡ raised self.old.calls }
        ensures failed { self.new.failed ≡ cond (is_err result) (raised self.old.failed) self.old.failed }
        ensures listed { self.new.fails ≡ self.old.fails }
        ensures slow { self.new.most ≡ self.old.most }
        ensures idle { length buf.old ≡ 0 → self.new ≡ self.old }
    {
        let size = at_most(self.most, buf.len());
        if buf.is_empty() {
            return Ok(0);
        }
        let fails = self.count_call();
        match find(self.files.as_slice(), name) {
            Some(file) if !fails => Ok(copy_piece(file, at, buf, size)),
            _ => {
                self.failed = self.failed.saturating_add(1);
                Err(ShelfFailed)
            }
        }
    }
}

/// A shelf in memory, which tells its files and never fails. A name for which it has no file reads as an empty file.
#[derive(Drop)]
pub struct SureShelf {
    files: List<(Name, List<u8>)>,
}

impl Model for SureShelf {
    ghost use Rattle.std.specs.Prelude.{ℕ, List};

    ghost Value = { List (List ℕ × List ℕ) };

    ghost view = { λ shelf. shelf.files };
}

impl SureShelf {
    /// A shelf of files with their names. The first of two files of one name counts.
    pub fn new(files: List<(Name, List<u8>)>) -> SureShelf
        ensures { result ≡ files }
    {
        SureShelf { files }
    }
}

impl Shelf for SureShelf {
    ghost told = { λ shelf. Some (files_of shelf) };

    ghost faults = { λ shelf name. 0 };

    ghost may_read = { λ shelf name at size. ⊤ };

    fn read_at(&mut self, name: &str, at: u64, buf: &mut [u8]) -> Result<usize, ShelfFailed> {
        let size = buf.len();
        match find(self.files.as_slice(), name) {
            Some(file) => Ok(copy_piece(file, at, buf, size)),
            None => Ok(0),
        }
    }
}
