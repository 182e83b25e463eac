//! Answers to queries.

ghost use Rattle.std.specs.Prelude.{◌≡◌, ◌<◌, ◌^◌, All, IfOk, IfSome, length, map, slice_get};
ghost use Rattle.provenance.specs.Answer.{answer, of_history, of_id, of_range, table_named, takes_key};
ghost use Rattle.provenance.specs.Asked.{Answers};
ghost use Rattle.provenance.specs.Chosen.{IsRange, IsTold, chosen, declared_spans};
ghost use Rattle.provenance.specs.Versions.{AreTold, history_of, version_of};

use crate::chosen::{Choice, push_chosen};
use crate::keys::keys_by;
use crate::query::{Query, QueryFault};
use node_model::{KeptResult, Version};
use proc_eval::fit::fits_key;
use rel_base::{Id, Key, List, Name, NoMemory, TableDef, table_of};
use row_sets::{Lifespan, Versions};
use std::alloc::Global;

/// The number of the table of a name.
fn table_named(tables: &List<TableDef>, name: &Name) -> Option<u32>
    requires { length tables.now < 2 ^ 32 }
    ensures named { result ≡ table_named tables.now name.now }
    ensures within { IfSome result (λ table. table < length tables.now) }
{
    table_of(tables, name.as_str())
}

/// Whether the table of a number has the kinds of a key.
fn takes_key(tables: &List<TableDef>, table: u32, key: &Key) -> bool
    ensures { result ≡ takes_key (slice_get tables.now table) key.now }
{
    match tables.get(table as usize) {
        None => false,
        Some(def) => fits_key(def, key),
    }
}

/// Those of some versions of a table that are chosen.
fn told(
    alloc: Global,
    blocks: &List<KeptResult>,
    choice: Choice<'_>,
    table: u32,
    spans: List<Lifespan>,
) -> Result<List<Version>, NoMemory>
    requires told { All (IsTold blocks.now) spans }
    requires range { IsRange choice }
    ensures { IfOk result (λ versions. versions ≡ chosen blocks.now choice.entry (map (version_of blocks.now table) spans)) }
{
    let mut versions = List::new(alloc);
    push_chosen(
        alloc,
        blocks.as_slice(),
        choice,
        table,
        spans,
        &mut versions,
    )?;
    Ok(versions)
}

/// All versions of a key of a table.
fn history<V: Versions>(
    alloc: Global,
    tables: &List<TableDef>,
    versions: &V,
    blocks: &List<KeptResult>,
    table: u32,
    key: &Key,
) -> Result<List<Version>, QueryFault>
    requires tables { V.tables versions.now ≡ tables.now }
    requires history { V.history versions.now ≡ history_of blocks.now }
    requires told { AreTold blocks.now }
    ensures { Answers result (of_history tables.now blocks.now key.now table) }
{
    if !takes_key(tables, table, key) {
        return Err(QueryFault::BadKey);
    }
    let spans = versions.chain_of(table, key)?;
    let told = told(alloc, blocks, Choice::Each, table, spans)?;
    Ok(told)
}

/// The versions of a table that were visible at some height from one to another, both included.
fn between<V: Versions>(
    alloc: Global,
    versions: &V,
    blocks: &List<KeptResult>,
    table: u32,
    from: u64,
    to: u64,
) -> Result<List<Version>, QueryFault>
    requires declared { table < length (V.tables versions.now) }
    requires history { V.history versions.now ≡ history_of blocks.now }
    requires told { AreTold blocks.now }
    ensures { Answers result (of_range blocks.now from to table) }
{
    if from > to || to > blocks.len() as u64 {
        return Err(QueryFault::BadRange);
    }
    let spans = versions.all_of(table)?;
    let told = told(alloc, blocks, Choice::Visible { from, to }, table, spans)?;
    Ok(told)
}

/// All versions of a key, of a table that is declared.
fn chain<V: Versions>(
    alloc: Global,
    tables: &List<TableDef>,
    versions: &V,
    table: u32,
    key: Key,
) -> Result<List<Lifespan>, NoMemory>
    requires tables { V.tables versions.now ≡ tables.now }
    ensures { IfOk result (λ spans. spans ≡ declared_spans tables.now (V.history versions.now) (table, key)) }
{
    if (table as usize) < tables.len() {
        versions.chain_of(table, &key)
    } else {
        Ok(List::new(alloc))
    }
}

/// The versions that the transaction that committed under an id made or ended: those of the keys that it wrote are looked at.
fn written<V: Versions>(
    alloc: Global,
    tables: &List<TableDef>,
    versions: &V,
    blocks: &List<KeptResult>,
    id: &Id,
) -> Result<List<Version>, NoMemory>
    requires tables { V.tables versions.now ≡ tables.now }
    requires history { V.history versions.now ≡ history_of blocks.now }
    requires told { AreTold blocks.now }
    ensures { IfOk result (λ told. told ≡ of_id tables.now blocks.now id.now) }
{
    let keys = keys_by(alloc, versions, blocks.as_slice(), id)?;
    let mut told = List::new(alloc);
    for (table, key) in keys {
        let spans = chain(alloc, tables, versions, table, key)?;
        push_chosen(
            alloc,
            blocks.as_slice(),
            Choice::WrittenBy(id),
            table,
            spans,
            &mut told,
        )?;
    }
    Ok(told)
}

/// The versions that a query selects among those of declared tables in the results of blocks: of a key all, in the order in which
/// they were made; of a table those that were visible in the range, by the place where they were made and then by key; and those that a
/// transaction made or ended, by table, key and the place where they were made.
///
/// It is `UnknownTable` exactly where no table has the name of the query, and else `BadKey` exactly where the number or the kinds of the
/// key's values differ, and `BadRange` exactly where the range is empty or goes beyond the last block. It is never `BadQuery`.
pub fn answer<V: Versions>(
    alloc: Global,
    tables: &List<TableDef>,
    versions: &V,
    blocks: &List<KeptResult>,
    query: &Query,
) -> Result<List<Version>, QueryFault>
    requires tables { V.tables versions.now ≡ tables.now }
    requires few { length tables.now < 2 ^ 32 }
    requires history { V.history versions.now ≡ history_of blocks.now }
    requires told { AreTold blocks.now }
    ensures { Answers result (answer tables.now blocks.now query.now) }
{
    match query {
        Query::History { table, key } => match table_named(tables, table) {
            None => Err(QueryFault::UnknownTable),
            Some(table) => history(alloc, tables, versions, blocks, table, key),
        },
        Query::Between { table, from, to } => match table_named(tables, table) {
            None => Err(QueryFault::UnknownTable),
            Some(table) => between(alloc, versions, blocks, table, *from, *to),
        },
        Query::Written { id } => Ok(written(alloc, tables, versions, blocks, id)?),
    }
}
