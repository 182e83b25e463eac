//! What the names of a query speak of.

ghost use Rattle.std.specs.Prelude.{◌≡◌, ◌<◌, ◌^◌, Ok, length, map};
ghost use Rattle.std.specs.List.{position_from};
ghost use Rattle.std.specs.Option.{option_copied};
ghost use Rattle.query_plan.specs.Answer.{Answers};
ghost use Rattle.query_text.specs.Walk.{col_kind, column_of, field_kind, is_named, known, same_col, same_field, same_kind, scope_of, side_kind, table_of, twice, unknown, walk_col, walk_field, wrong};

use crate::tree::{ColText, FieldText, NameText, SourceText};
use proc_parse::lexer::Position;
use query_plan::access::kind_at;
use query_plan::{AskFault, Col, Field, Side};
use rel_base::{Kind, Name, TableDef};

/// The declared tables, the sources of a query and the numbers of their tables.
#[derive(Clone, Copy)]
pub struct Sources<'a> {
    pub tables: &'a [TableDef],
    pub names: &'a [SourceText],
    pub numbers: &'a [u32],
}

/// The fault of a name that names nothing.
pub fn unknown(at: Position) -> AskFault
    ensures { result ≡ unknown at }
{
    AskFault::UnknownName {
        line: at.line,
        col: at.col,
    }
}

/// The fault of a source whose name was used before.
pub fn twice(at: Position) -> AskFault
    ensures { result ≡ twice at }
{
    AskFault::NameTwice {
        line: at.line,
        col: at.col,
    }
}

/// The fault of what has the wrong kind.
pub fn wrong(at: Position) -> AskFault
    ensures { result ≡ wrong at }
{
    AskFault::WrongKind {
        line: at.line,
        col: at.col,
    }
}

/// Whether a source has a name.
pub fn is_named(source: &SourceText, name: &Name) -> bool
    ensures { result ≡ is_named name.now source.now }
{
    source.name.name.as_str() == name.as_str()
}

/// The number of the first source of a name.
fn position_of(names: &[SourceText], name: &Name) -> Option<usize>
    ensures { result ≡ position_from (is_named name.now) 0 names.now }
{
    for (i, source) in names.iter().enumerate() {
        if is_named(source, name) {
            return Some(i);
        }
    }
    None
}

/// A number of 32 bits. That a query has more sources or items can not happen.
pub fn short(number: usize) -> Result<u32, AskFault>
    ensures { Answers result (Ok number) }
{
    match u32::try_from(number) {
        Ok(number) => Ok(number),
        Err(_) => Err(AskFault::NoMemory),
    }
}

/// The number of the source that a name names.
fn source_of(names: &[SourceText], name: &NameText) -> Result<u32, AskFault>
    ensures { Answers result (known name.now.at (position_from (is_named name.now.name) 0 names.now)) }
{
    match position_of(names, &name.name) {
        None => Err(unknown(name.at)),
        Some(source) => short(source),
    }
}

/// The table of a source.
fn table_of<'a>(sources: &Sources<'a>, source: u32) -> Option<&'a TableDef>
    ensures { option_copied result ≡ table_of (scope_of sources.now) source }
{
    let number = sources.numbers.get(source as usize)?;
    sources.tables.get(*number as usize)
}

/// The number of a table's first column of a name.
fn column_in(def: &TableDef, name: &Name) -> Option<usize>
    ensures { result ≡ column_of (Some def.now) name.now }
{
    for (i, column) in def.columns.as_slice().iter().enumerate() {
        if column.name.as_str() == name.as_str() {
            return Some(i);
        }
    }
    None
}

/// The number of the first column of a name, of a table that may be there.
fn column_of(def: Option<&TableDef>, name: &Name) -> Option<usize>
    ensures { result ≡ column_of (option_copied def.entry) name.now }
{
    column_in(def?, name)
}

/// The field of a row of a table that may be there.
fn walk_field(def: Option<&TableDef>, field: &FieldText) -> Result<Field, AskFault>
    ensures { Answers result (walk_field (option_copied def.entry) field.now) }
{
    match field {
        FieldText::Column(name) => match column_of(def, &name.name) {
            None => Err(unknown(name.at)),
            Some(column) => Ok(Field::Column(short(column)?)),
        },
        FieldText::Block => Ok(Field::Block),
        FieldText::Pos => Ok(Field::Pos),
    }
}

/// The field that a text names.
pub fn walk_col(sources: &Sources<'_>, col: &ColText) -> Result<Col, AskFault>
    ensures { Answers result (walk_col (scope_of sources.now) col.now) }
{
    let source = source_of(sources.names, &col.source)?;
    let field = walk_field(table_of(sources, source), &col.field)?;
    Ok(Col { source, field })
}

/// The kind of a field of a table that may be there. The numbers of a place are ints.
fn field_kind(def: Option<&TableDef>, field: Field) -> Kind
    ensures { result ≡ field_kind (option_copied def.entry) field }
{
    match (def, field) {
        (Some(def), Field::Column(column)) => kind_at(def, column),
        _ => Kind::Int,
    }
}

/// The kind of a field of a source.
pub fn col_kind(sources: &Sources<'_>, col: Col) -> Kind
    ensures { result ≡ col_kind (scope_of sources.now) col }
{
    field_kind(table_of(sources, col.source), col.field)
}

/// The kind of the right side of a comparison.
pub fn side_kind(sources: &Sources<'_>, side: &Side) -> Kind
    ensures { result ≡ side_kind (scope_of sources.now) side.now }
{
    match side {
        Side::Field(col) => col_kind(sources, *col),
        Side::Given(value) => value.kind(),
    }
}

/// Whether two kinds are one.
pub fn same_kind(a: Kind, b: Kind) -> bool
    ensures { result ≡ same_kind a b }
{
    match (a, b) {
        (Kind::Int, Kind::Int) => true,
        (Kind::Text, Kind::Text) => true,
        (Kind::Bool, Kind::Bool) => true,
        (Kind::Bytes, Kind::Bytes) => true,
        _ => false,
    }
}

/// Whether two fields of a row are one.
fn same_field(a: Field, b: Field) -> bool
    ensures { result ≡ same_field a b }
{
    match (a, b) {
        (Field::Column(a), Field::Column(b)) => a == b,
        (Field::Block, Field::Block) => true,
        (Field::Pos, Field::Pos) => true,
        _ => false,
    }
}

/// Whether two fields of sources are one.
pub fn same_col(a: Col, b: Col) -> bool
    ensures { result ≡ same_col a b }
{
    a.source == b.source && same_field(a.field, b.field)
}
