//! The texts of queries.

ghost use Rattle.std.specs.Prelude.{◌≡◌};
ghost use Rattle.literals.specs.Reads.{Gives, Reads};
ghost use Rattle.provenance.specs.Asked.{Asks};
ghost use Rattle.provenance.specs.Grammar.{between_form, history_form, keyed, number_at, query_of, range_of, written_form};

use crate::query::{Query, QueryFault};
use literals::LiteralFault;
use rel_base::{Key, Name};
use std::alloc::Global;
use tx_text::field::{read_id, read_name, skip, strip};
use tx_text::line::read_args;
use tx_text::value::read_u64;

/// A query of a key, which has at least one value.
fn keyed(table: Name, key: Key) -> Result<Query, LiteralFault>
    ensures { Gives result (keyed table key) }
{
    if key.is_empty() {
        return Err(LiteralFault::Bad);
    }
    Ok(Query::History { table, key })
}

/// Reads `TABLE KEY`.
fn read_history(alloc: Global, bytes: &[u8]) -> Result<Query, LiteralFault>
    ensures { Gives result (history_form bytes.now) }
{
    let (table, rest) = read_name(alloc, bytes)?;
    let values = read_args(alloc, rest)?;
    keyed(table, Key::from_list(values)?)
}

/// Reads a space and a number.
fn read_number(bytes: &[u8]) -> Result<(u64, &[u8]), LiteralFault>
    ensures { Reads result (number_at bytes.now) }
{
    let rest = skip(b" ", bytes)?;
    read_u64(rest)
}

/// Reads ` FROM TO`.
fn read_range(table: Name, bytes: &[u8]) -> Result<Query, LiteralFault>
    ensures { Gives result (range_of table bytes.now) }
{
    let (from, rest) = read_number(bytes)?;
    let (to, rest) = read_number(rest)?;
    if !rest.is_empty() {
        return Err(LiteralFault::Bad);
    }
    Ok(Query::Between { table, from, to })
}

/// Reads `TABLE FROM TO`.
fn read_between(alloc: Global, bytes: &[u8]) -> Result<Query, LiteralFault>
    ensures { Gives result (between_form bytes.now) }
{
    let (table, rest) = read_name(alloc, bytes)?;
    read_range(table, rest)
}

/// Reads `ID`.
fn read_written(alloc: Global, bytes: &[u8]) -> Result<Query, LiteralFault>
    ensures { Gives result (written_form bytes.now) }
{
    let (id, rest) = read_id(alloc, bytes)?;
    if !rest.is_empty() {
        return Err(LiteralFault::Bad);
    }
    Ok(Query::Written { id })
}

/// Reads the query that the bytes are, all of them.
fn read_query(alloc: Global, bytes: &[u8]) -> Result<Query, LiteralFault>
    ensures { Gives result (query_of bytes.now) }
{
    if let Some(rest) = strip(b"history ", bytes) {
        return read_history(alloc, rest);
    }
    if let Some(rest) = strip(b"between ", bytes) {
        return read_between(alloc, rest);
    }
    match strip(b"written ", bytes) {
        Some(rest) => read_written(alloc, rest),
        None => Err(LiteralFault::Bad),
    }
}

/// The query that a text of any length is. It is `BadQuery` exactly where the text is not in the grammar.
pub fn parse_query(alloc: Global, text: &str) -> Result<Query, QueryFault>
    ensures { Asks result (query_of text.now) }
{
    match read_query(alloc, text.as_bytes()) {
        Ok(query) => Ok(query),
        Err(LiteralFault::Bad) => Err(QueryFault::BadQuery),
        Err(LiteralFault::NoMemory) => Err(QueryFault::NoMemory),
    }
}
