//! A look at the memory that the next transactions need.

use block_work::Chain;
use proc_syntax::Tx;
use rel_base::{Key, Kind, NoMemory, TableDef, Twin, Value};
use row_sets::Versions;
use std::alloc::Global;

/// How many transactions are looked at together: what they need should fit into the processor's nearest memory.
const TOGETHER: usize = 64;

/// In how many tables their arguments are looked up at most.
const MOST_TABLES: usize = 4;

// The kind of the only key column of a table, where it has one alone.
fn key_kind(def: &TableDef) -> Option<Kind> {
    match def.key.as_slice() {
        [column] => match def.columns.get(*column as usize) {
            None => None,
            Some(column) => Some(column.kind),
        },
        _ => None,
    }
}

// Adds those of some values that are of a kind, each as a key.
fn push_keys(
    alloc: Global,
    keys: &mut Vec<Key>,
    kind: Kind,
    values: &[Value],
) -> Result<(), NoMemory> {
    for value in values {
        if value.kind() == kind {
            keys.push(Key::of(value.copy(alloc)?))?;
        }
    }
    Ok(())
}

// The arguments of some transactions that are of a kind, each as a key.
fn keys_in(alloc: Global, kind: Kind, txs: &[Tx]) -> Result<Vec<Key>, NoMemory> {
    let mut keys = Vec::new(alloc);
    for tx in txs {
        push_keys(alloc, &mut keys, kind, tx.args.as_slice())?;
    }
    Ok(keys)
}

// Looks at what some transactions may read of a table, where their arguments are keys.
fn look_at_table<V: Versions>(alloc: Global, chain: &Chain<V>, table: u32, txs: &[Tx]) -> usize {
    let Some(def) = chain.app.tables().get(table as usize) else {
        return 0;
    };
    let Some(kind) = key_kind(def) else {
        return 0;
    };
    match keys_in(alloc, kind, txs) {
        Ok(keys) => chain.versions.look_ahead(table, keys.as_slice()),
        Err(NoMemory) => 0,
    }
}

// Looks at what some transactions may read.
fn look_at_tables<V: Versions>(alloc: Global, chain: &Chain<V>, txs: &[Tx]) -> usize {
    let mut count: usize = 0;
    for table in 0..chain.app.tables().len().min(MOST_TABLES) {
        let found = look_at_table(alloc, chain, table as u32, txs);
        count = count.wrapping_add(found);
    }
    count
}

/// Where so many transactions of a block were decided that others are to be looked at, looks at what the next ones may read. Nothing
/// is changed and nothing is promised: the reads that follow wait less for memory. It can not fail: where memory runs out, it looks at
/// less.
///
/// It is told whether looks pay, and answers the same: they do until one finds no row, as where all transactions insert.
pub fn look_ahead<V: Versions>(
    alloc: Global,
    chain: &Chain<V>,
    txs: &[Tx],
    decided: usize,
    pays: bool,
) -> bool {
    if !pays || decided % TOGETHER != 0 {
        return pays;
    }
    let end = decided.saturating_add(TOGETHER).min(txs.len());
    match txs.get(decided..end) {
        None => false,
        Some(next) => look_at_tables(alloc, chain, next) > 0,
    }
}
