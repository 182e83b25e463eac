//! Queries as a text has them: names that are not resolved yet, each with its place.

use proc_parse::lexer::Position;
use query_plan::Relation;
use rel_base::{List, Name, Value};

/// A name, and where it stands.
#[derive(Drop)]
pub struct NameText {
    pub name: Name,
    pub at: Position,
}

/// A source: a table, and the name by which the query speaks of its rows.
#[derive(Drop)]
pub struct SourceText {
    pub table: NameText,
    pub name: NameText,
}

/// What is named of a row: a column, or a number of the place of its writer.
#[derive(Drop)]
pub enum FieldText {
    Column(NameText),
    Block,
    Pos,
}

/// A field of a source.
#[derive(Drop)]
pub struct ColText {
    pub source: NameText,
    pub field: FieldText,
}

/// The right side of a comparison.
#[derive(Drop)]
pub enum SideText {
    Field(ColText),
    Given { value: Value, at: Position },
}

/// A comparison.
#[derive(Drop)]
pub struct ComparisonText {
    pub left: ColText,
    pub relation: Relation,
    pub right: SideText,
}

/// An item of the list after `select`.
#[derive(Drop)]
pub enum ItemText {
    Plain(ColText),
    Count,
    Sum(ColText),
    Min(ColText),
    Max(ColText),
}

/// A number of the list after `order by`, and where it stands.
#[derive(Clone, Copy)]
pub struct NumberText {
    pub number: i64,
    pub at: Position,
}

/// What a query selects: items of one source, in groups or not, or fields of several sources.
#[derive(Drop)]
pub enum SelectedText {
    Items {
        groups: List<ColText>,
        items: List<ItemText>,
    },
    Columns(List<ColText>),
}

/// A query.
#[derive(Drop)]
pub struct SelectText {
    pub sources: List<SourceText>,
    pub comparisons: List<ComparisonText>,
    pub selected: SelectedText,
    pub order: List<NumberText>,
}
