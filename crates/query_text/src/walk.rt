//! The walk over a query in the order of its text.

ghost use Rattle.std.specs.Prelude.{◌≡◌, ◌<◌, ◌^◌, List, [], length, map};
ghost use Rattle.std.specs.List.{list_any, position_from};
ghost use Rattle.std.specs.Str.{bytes_eq};
ghost use Rattle.query_plan.specs.Answer.{Answers};
ghost use Rattle.query_text.specs.Walk.{each, is_named, known, scope_of, side_place, walk, walk_col, walk_comparison, walk_rest, walk_side, walk_source, walk_sources};

use crate::scope::{
    Sources, col_kind, is_named, same_kind, short, side_kind, twice, unknown, walk_col, wrong,
};
use crate::selected::{walk_order, walk_selected};
use crate::tree::{ColText, ComparisonText, NameText, SelectText, SideText, SourceText};
use proc_parse::lexer::Position;
use query_plan::{AskFault, Col, Comparison, Select, Side};
use rel_base::{List, Name, TableDef, Twin, table_of};
use std::alloc::Global;

/// The number of the table that a name names.
fn table_named(tables: &List<TableDef>, name: &NameText) -> Result<u32, AskFault>
    requires { length tables.now < 2 ^ 32 }
    ensures { Answers result (known name.now.at (position_from (λ def. bytes_eq def.name name.now.name) 0 tables.now)) }
{
    match table_of(tables, name.name.as_str()) {
        None => Err(unknown(name.at)),
        Some(table) => Ok(table),
    }
}

/// Whether one of some sources has a name.
fn are_some_named(sources: &[SourceText], name: &Name) -> bool
    ensures { result ≡ list_any (is_named name.now) sources.now }
{
    sources.iter().any(|source| is_named(source, name))
}

/// The number of the table of a source that stands after some.
fn walk_source(
    tables: &List<TableDef>,
    earlier: &[SourceText],
    source: &SourceText,
) -> Result<u32, AskFault>
    requires { length tables.now < 2 ^ 32 }
    ensures { Answers result (walk_source tables.now earlier.now source.now) }
{
    let table = table_named(tables, &source.table)?;
    if are_some_named(earlier, &source.name.name) {
        Err(twice(source.name.at))
    } else {
        Ok(table)
    }
}

/// The numbers of the tables of sources.
fn walk_sources(
    alloc: Global,
    tables: &List<TableDef>,
    sources: &[SourceText],
) -> Result<List<u32>, AskFault>
    requires { length tables.now < 2 ^ 32 }
    ensures { Answers result (walk_sources tables.now [] sources.now) }
{
    let mut numbers = List::new(alloc);
    for (i, source) in sources.iter().enumerate() {
        let number = walk_source(tables, &sources[..i], source)?;
        numbers.push(number)?;
    }
    Ok(numbers)
}

/// The right side that a text names.
fn walk_side(alloc: Global, sources: &Sources<'_>, side: &SideText) -> Result<Side, AskFault>
    ensures { Answers result (walk_side (scope_of sources.now) side.now) }
{
    match side {
        SideText::Field(col) => Ok(Side::Field(walk_col(sources, col)?)),
        SideText::Given { value, .. } => Ok(Side::Given(value.copy(alloc)?)),
    }
}

/// Where a right side begins.
fn side_place(side: &SideText) -> Position
    ensures { result ≡ side_place side.now }
{
    match side {
        SideText::Field(col) => col.source.at,
        SideText::Given { at, .. } => *at,
    }
}

/// The comparison that a text names.
fn walk_comparison(
    alloc: Global,
    sources: &Sources<'_>,
    comparison: &ComparisonText,
) -> Result<Comparison, AskFault>
    ensures { Answers result (walk_comparison (scope_of sources.now) comparison.now) }
{
    let left = walk_col(sources, &comparison.left)?;
    let right = walk_side(alloc, sources, &comparison.right)?;
    if same_kind(col_kind(sources, left), side_kind(sources, &right)) {
        Ok(Comparison {
            left,
            relation: comparison.relation,
            right,
        })
    } else {
        Err(wrong(side_place(&comparison.right)))
    }
}

/// The comparisons that texts name.
fn walk_comparisons(
    alloc: Global,
    sources: &Sources<'_>,
    comparisons: &[ComparisonText],
) -> Result<List<Comparison>, AskFault>
    ensures { Answers result (each (walk_comparison (scope_of sources.now)) comparisons.now) }
{
    let mut made = List::new(alloc);
    for comparison in comparisons {
        made.push(walk_comparison(alloc, sources, comparison)?)?;
    }
    Ok(made)
}

/// The fields that texts name.
pub fn walk_cols(
    alloc: Global,
    sources: &Sources<'_>,
    cols: &[ColText],
) -> Result<List<Col>, AskFault>
    ensures { Answers result (each (walk_col (scope_of sources.now)) cols.now) }
{
    let mut made = List::new(alloc);
    for col in cols {
        made.push(walk_col(sources, col)?)?;
    }
    Ok(made)
}

/// The query that a text names, of which the numbers of the tables of its sources are known.
fn walk_rest(
    alloc: Global,
    tables: &List<TableDef>,
    select: &SelectText,
    numbers: List<u32>,
) -> Result<Select, AskFault>
    ensures { Answers result (walk_rest (record { tables = tables.now; names = select.now.sources; numbers = numbers }) select.now) }
{
    let sources = Sources {
        tables: tables.as_slice(),
        names: select.sources.as_slice(),
        numbers: numbers.as_slice(),
    };
    let comparisons = walk_comparisons(alloc, &sources, select.comparisons.as_slice())?;
    let (groups, items) = walk_selected(alloc, &sources, &select.selected)?;
    let order = walk_order(alloc, short(items.len())?, select.order.as_slice())?;
    Ok(Select {
        sources: numbers,
        comparisons,
        groups,
        items,
        order,
    })
}

/// The query that a text names, or its first fault in the order of the text.
pub fn walk(alloc: Global, tables: &List<TableDef>, select: &SelectText) -> Result<Select, AskFault>
    requires { length tables.now < 2 ^ 32 }
    ensures { Answers result (walk tables.now select.now) }
{
    let numbers = walk_sources(alloc, tables, select.sources.as_slice())?;
    walk_rest(alloc, tables, select, numbers)
}
