//! A few own writes of a table, in a vector in the order of their keys.

ghost use Rattle.std.specs.Prelude.{◌≡◌, ◌<◌, [], Err, IfOk, None, OnErr, OnOk, length, not, is_some, true};
ghost use Rattle.std.proofs.Common.{T};
ghost use Rattle.std.specs.FinMap.Entries.{find, put, is_sorted};
ghost use Rattle.std.specs.Option.{option_copied};
ghost use Rattle.std.specs.Vec.{vec_len};
ghost use Rattle.rel_base.specs.Value.{key_cmp};
ghost use Rattle.row_sets.specs.Few.{in_order, place_from, put_over};

use crate::table_writes::OwnWrite;
use rel_base::{Key, NoMemory, Row};
use std::cmp::Ordering;
use std::collections::BTreeMap;

/// Whether a key stands after those of several writes, by one look at the last of them. Keys that rise from write to write do.
fn is_after(few: &[(Key, OwnWrite)], key: &Key) -> bool
    requires { T (is_sorted key_cmp few.now) }
    ensures missing { result ≡ true → find key_cmp key.now few.now ≡ None }
    ensures place { result ≡ true → place_from 0 key.now few.now ≡ Err (length few.now) }
{
    match few.last() {
        Some((last, _)) if few.len() > 1 => key.cmp(last).is_gt(),
        _ => false,
    }
}

/// What was done to a key, where it was written.
pub fn find_few<'a>(few: &'a [(Key, OwnWrite)], key: &Key) -> Option<&'a OwnWrite>
    ensures { option_copied result ≡ find key_cmp key.now few.now }
{
    for (held, own) in few {
        if key.cmp(held).is_eq() {
            return Some(own);
        }
    }
    None
}

/// What was done to a key, where it was written. The writes stand in the order of their keys.
pub fn find_in_order<'a>(few: &'a [(Key, OwnWrite)], key: &Key) -> Option<&'a OwnWrite>
    requires { T (is_sorted key_cmp few.now) }
    ensures { option_copied result ≡ find key_cmp key.now few.now }
{
    if is_after(few, key) {
        return None;
    }
    find_few(few, key)
}

/// Where a key stands, and else the place that is its in the order.
fn search(few: &[(Key, OwnWrite)], key: &Key) -> Result<usize, usize>
    requires { T (is_sorted key_cmp few.now) }
    ensures { result ≡ place_from 0 key.now few.now }
{
    if is_after(few, key) {
        return Err(few.len());
    }
    for (place, (held, _)) in few.iter().enumerate() {
        match key.cmp(held) {
            Ordering::Less => return Err(place),
            Ordering::Equal => return Ok(place),
            Ordering::Greater => {}
        }
    }
    Err(few.len())
}

/// A row is left at a key, or none: whether the key was not written before.
pub fn put_few(
    few: &mut Vec<(Key, OwnWrite)>,
    key: Key,
    before: Option<Row>,
    after: Option<Row>,
) -> Result<bool, NoMemory>
    requires { T (is_sorted key_cmp few.old.items) }
    ensures put { OnOk result (few.new.items ≡ put key_cmp key (put_over before after (find key_cmp key few.old.items)) few.old.items) }
    ensures first { IfOk result (λ first. first ≡ not (is_some (find key_cmp key few.old.items))) }
    ensures unchanged { OnErr result (few.new.items ≡ few.old.items) }
{
    match search(few.as_slice(), &key) {
        Ok(place) => {
            few[place].1.after = after;
            Ok(false)
        }
        Err(place) => {
            few.insert(place, (key, OwnWrite { before, after }))?;
            Ok(true)
        }
    }
}

/// Moves the last write to a map of greater keys.
fn move_last(
    few: &mut Vec<(Key, OwnWrite)>,
    many: &mut BTreeMap<Key, OwnWrite>,
) -> Result<(), NoMemory>
    requires some { 0 < vec_len few.old }
    requires sorted { T (is_sorted key_cmp (in_order few.old many.old)) }
    ensures same { in_order few.new many.new ≡ in_order few.old many.old }
    ensures less { OnOk result (vec_len few.new < vec_len few.old) }
{
    let (key, own) = few.take_last();
    if let Err(refused) = many.insert(key, own) {
        few.push_reserved(refused.value);
        return Err(NoMemory);
    }
    Ok(())
}

/// Moves all writes to a map of greater keys, the last first. All are where they were, or some are in the map, after `NoMemory`.
pub fn move_all(
    few: &mut Vec<(Key, OwnWrite)>,
    many: &mut BTreeMap<Key, OwnWrite>,
) -> Result<(), NoMemory>
    requires { T (is_sorted key_cmp (in_order few.old many.old)) }
    ensures same { in_order few.new many.new ≡ in_order few.old many.old }
    ensures all { OnOk result (few.new.items ≡ []) }
{
    while !few.is_empty() {
        move_last(few, many)?;
    }
    Ok(())
}
