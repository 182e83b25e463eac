//! What a query selects, and the order of its answer.

ghost use Rattle.std.specs.Prelude.{◌≡◌, ◌||◌, IfOk, map};
ghost use Rattle.std.specs.List.{list_any};
ghost use Rattle.query_plan.specs.Answer.{Answers, is_some_col};
ghost use Rattle.query_plan.specs.declared.select.Item.TheVariants as item;
ghost use Rattle.query_text.specs.Walk.{allowed, each, is_aggregate, names_item, same_col, scope_of, walk_grouped, walk_item, walk_number, walk_selected, wrong};

use crate::scope::{Sources, col_kind, same_col, same_kind, walk_col, wrong};
use crate::tree::{ColText, ItemText, NumberText, SelectedText};
use crate::walk::walk_cols;
use proc_parse::lexer::Position;
use query_plan::{AskFault, Col, Item};
use rel_base::{Kind, List, NoMemory};
use std::alloc::Global;

/// The fields by which a query makes groups, if it makes any.
#[derive(Clone, Copy)]
pub struct Groups<'a> {
    pub grouped: bool,
    pub columns: &'a [Col],
}

/// Whether an item is made of the tuples of a group.
fn is_aggregate(item: &ItemText) -> bool
    ensures { result ≡ is_aggregate item.now }
{
    !matches!(item, ItemText::Plain(_))
}

/// Whether one of some fields is this one.
fn are_some(cols: &[Col], col: Col) -> bool
    ensures { result ≡ list_any (same_col col) cols.now }
{
    cols.iter().any(|other| same_col(col, *other))
}

/// An item that may be one, or the fault of what stands at a place.
fn allowed(at: Position, may: bool, item: Item) -> Result<Item, AskFault>
    ensures { result ≡ allowed (wrong at) may item }
{
    if may { Ok(item) } else { Err(wrong(at)) }
}

/// The item that a text names.
fn walk_item(sources: &Sources<'_>, groups: &Groups<'_>, item: &ItemText) -> Result<Item, AskFault>
    ensures { Answers result (walk_item (scope_of sources.now) groups.now.grouped groups.now.columns.now item.now) }
{
    match item {
        ItemText::Plain(text) => {
            let col = walk_col(sources, text)?;
            let may = !groups.grouped || are_some(groups.columns, col);
            allowed(text.source.at, may, Item::Plain(col))
        }
        ItemText::Count => Ok(Item::Count),
        ItemText::Sum(text) => {
            let col = walk_col(sources, text)?;
            let may = same_kind(col_kind(sources, col), Kind::Int);
            allowed(text.source.at, may, Item::Sum(col))
        }
        ItemText::Min(text) => Ok(Item::Min(walk_col(sources, text)?)),
        ItemText::Max(text) => Ok(Item::Max(walk_col(sources, text)?)),
    }
}

/// The items that texts name.
fn walk_items(
    alloc: Global,
    sources: &Sources<'_>,
    groups: &Groups<'_>,
    items: &[ItemText],
) -> Result<List<Item>, AskFault>
    ensures { Answers result (each (walk_item (scope_of sources.now) groups.now.grouped groups.now.columns.now) items.now) }
{
    let mut made = List::new(alloc);
    for item in items {
        made.push(walk_item(sources, groups, item)?)?;
    }
    Ok(made)
}

/// Whether there is a field that makes groups.
fn is_some_col(columns: &[Col]) -> bool
    ensures { result ≡ is_some_col columns.now }
{
    match columns {
        [] => false,
        [_, ..] => true,
    }
}

/// Whether there is an aggregate.
fn are_some_aggregates(items: &[ItemText]) -> bool
    ensures { result ≡ list_any is_aggregate items.now }
{
    items.iter().any(is_aggregate)
}

/// Whether there are groups or aggregates.
fn is_grouped(columns: &[Col], items: &[ItemText]) -> bool
    ensures { result ≡ (is_some_col columns.now || list_any is_aggregate items.now) }
{
    is_some_col(columns) || are_some_aggregates(items)
}

/// Fields as items.
fn plain(alloc: Global, columns: &[Col]) -> Result<List<Item>, NoMemory>
    ensures { IfOk result (λ items. items ≡ map item.Plain columns.now) }
{
    let mut items = List::new(alloc);
    for col in columns {
        items.push(Item::Plain(*col))?;
    }
    Ok(items)
}

/// The groups and items of a query of one source.
fn walk_grouped(
    alloc: Global,
    sources: &Sources<'_>,
    groups: &[ColText],
    items: &[ItemText],
) -> Result<(List<Col>, List<Item>), AskFault>
    ensures { Answers result (walk_grouped (scope_of sources.now) groups.now items.now) }
{
    let columns = walk_cols(alloc, sources, groups)?;
    let by = Groups {
        grouped: is_grouped(columns.as_slice(), items),
        columns: columns.as_slice(),
    };
    let items = walk_items(alloc, sources, &by, items)?;
    Ok((columns, items))
}

/// The fields that make the groups of a query, and its items.
pub fn walk_selected(
    alloc: Global,
    sources: &Sources<'_>,
    selected: &SelectedText,
) -> Result<(List<Col>, List<Item>), AskFault>
    ensures { Answers result (walk_selected (scope_of sources.now) selected.now) }
{
    match selected {
        SelectedText::Items { groups, items } => {
            walk_grouped(alloc, sources, groups.as_slice(), items.as_slice())
        }
        SelectedText::Columns(columns) => {
            let columns = walk_cols(alloc, sources, columns.as_slice())?;
            let items = plain(alloc, columns.as_slice())?;
            Ok((List::new(alloc), items))
        }
    }
}

/// The number of an item, from 1.
fn walk_number(items: u32, number: &NumberText) -> Result<u32, AskFault>
    ensures { Answers result (walk_number items number.now) }
{
    match u32::try_from(number.number) {
        Ok(item) if item > 0 && item <= items => Ok(item),
        _ => Err(wrong(number.at)),
    }
}

/// The numbers of the items by which an answer is ordered.
pub fn walk_order(alloc: Global, items: u32, numbers: &[NumberText]) -> Result<List<u32>, AskFault>
    ensures { Answers result (each (walk_number items) numbers.now) }
{
    let mut made = List::new(alloc);
    for number in numbers {
        made.push(walk_number(items, number)?)?;
    }
    Ok(made)
}
