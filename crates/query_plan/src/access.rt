//! How the rows of a source are read.

ghost use Rattle.std.specs.Prelude.{◌≡◌, ◌&&◌, ◌==◌, All, IfOk, IfSome, Some, slice_get};
ghost use Rattle.std.specs.Option.{option_map};
ghost use Rattle.query_plan.specs.Cells.{IsEarly, cell_value};
ghost use Rattle.query_plan.specs.Fits.{AccessFits, StepFits};
ghost use Rattle.query_plan.specs.Reads.{bounds, end_of, fit_end, fitting, has_kind, is_column, is_given, is_some_column, key_ends, point_or, read_by, serves, whole_by};
ghost use Rattle.query_plan.specs.Walk.{IsReadOf};
ghost use Rattle.rel_base.specs.Schema.{kind_at};

use crate::cell::{Cell, cell_copy, side_at};
use crate::select::{Comparison, Field, Relation, Side};
use rel_base::{Key, Kind, NoMemory, Read, Seen, TableDef, Value};
use std::alloc::Global;

/// How the rows of a source are read: by their whole key, by the value of a column, or all.
#[derive(Clone, Copy)]
pub enum Access {
    Point,
    Span { column: u32 },
    Whole,
}

/// A source: the number of its table, and how its rows are read.
#[derive(Clone, Copy)]
pub struct Step {
    pub table: u32,
    pub access: Access,
}

/// What a comparison says of a value: that it is this one, at least this one or at most this one.
#[derive(Clone, Copy)]
pub enum Bound {
    Exact,
    Low,
    High,
}

/// Whether values that stand so to each other are bounded so.
fn serves(bound: Bound, relation: Relation) -> bool
    ensures { result ≡ serves bound relation }
{
    match (bound, relation) {
        (_, Relation::Equal) => true,
        (Bound::Low, Relation::Greater | Relation::GreaterOrEqual) => true,
        (Bound::High, Relation::Less | Relation::LessOrEqual) => true,
        _ => false,
    }
}

/// Whether a field is a column of this number.
fn is_column(field: Field, column: u32) -> bool
    ensures { result ≡ is_column column field }
{
    match field {
        Field::Column(other) => column == other,
        _ => false,
    }
}

/// Whether a field is a column.
fn is_some_column(field: Field) -> bool
    ensures { result ≡ is_some_column field }
{
    match field {
        Field::Column(_) => true,
        Field::Block | Field::Pos => false,
    }
}

/// Whether a side is a value or a column of an earlier source.
fn is_given(side: &Side, source: usize) -> bool
    ensures { result ≡ is_given source side.now }
{
    match side {
        Side::Field(col) => (col.source as usize) < source && is_some_column(col.field),
        Side::Given(_) => true,
    }
}

/// Whether a comparison bounds a column of a source by a value or a column of an earlier source.
pub fn bounds(comparison: &Comparison, source: usize, column: u32, bound: Bound) -> bool
    ensures { result ≡ bounds source column bound comparison.now }
{
    source == comparison.left.source as usize
        && (is_column(comparison.left.field, column)
            && (serves(bound, comparison.relation) && is_given(&comparison.right, source)))
}

/// The bound of a column of the next source: that of the first comparison that bounds it.
fn end_of<'a>(
    comparisons: &'a [Comparison],
    prefix: &'a [Seen],
    column: u32,
    bound: Bound,
) -> Option<Cell<'a>>
    requires { All IsEarly prefix.now }
    ensures { option_map cell_value result ≡ end_of comparisons.now prefix.now column bound }
{
    for comparison in comparisons {
        if bounds(comparison, prefix.len(), column, bound) {
            return Some(side_at(prefix, &comparison.right));
        }
    }
    None
}

/// Whether a value has a kind.
fn has_kind(kind: Kind, value: &Value) -> bool
    ensures { result ≡ has_kind kind value.now }
{
    match (kind, value) {
        (Kind::Int, Value::Int(_)) => true,
        (Kind::Text, Value::Text(_)) => true,
        (Kind::Bool, Value::Bool(_)) => true,
        (Kind::Bytes, Value::Bytes(_)) => true,
        _ => false,
    }
}

/// The kind of a column of a table.
#[tactic(auto, using(crate::proofs::KindAt::kind_none, crate::proofs::KindAt::kind_some))]
pub fn kind_at(def: &TableDef, column: u32) -> Kind
    ensures { result ≡ kind_at def.now column }
{
    match def.columns.get(column as usize) {
        None => Kind::Int,
        Some(column) => column.kind,
    }
}

/// A value, where it has a kind.
fn fitting(kind: Kind, value: Value) -> Option<Value>
    ensures { result ≡ fitting kind (Some value) }
{
    if has_kind(kind, &value) {
        Some(value)
    } else {
        None
    }
}

/// The bound of a column of the next source, where it has the kind of the column.
fn fit_end(
    alloc: Global,
    def: &TableDef,
    comparisons: &[Comparison],
    prefix: &[Seen],
    bound: Bound,
    column: u32,
) -> Result<Option<Value>, NoMemory>
    requires { All IsEarly prefix.now }
    ensures { IfOk result (λ end. end ≡ fit_end def.now comparisons.now prefix.now bound column) }
{
    match end_of(comparisons, prefix, column, bound) {
        None => Ok(None),
        Some(cell) => {
            let value = cell_copy(alloc, cell)?;
            Ok(fitting(kind_at(def, column), value))
        }
    }
}

/// The key that the next source has, where the comparisons tell each of its values.
fn key_ends(
    alloc: Global,
    def: &TableDef,
    comparisons: &[Comparison],
    prefix: &[Seen],
) -> Result<Option<Key>, NoMemory>
    requires { All IsEarly prefix.now }
    ensures { IfOk result (λ key. key ≡ key_ends def.now comparisons.now prefix.now def.now.key) }
{
    let mut key = Key::new();
    for column in def.key.as_slice() {
        match fit_end(alloc, def, comparisons, prefix, Bound::Exact, *column)? {
            None => return Ok(None),
            Some(value) => key = key.with(alloc, value)?,
        }
    }
    Ok(Some(key))
}

/// The read of all rows of a table.
fn whole_by(table: u32, key: &[u32]) -> Read
    ensures { result ≡ whole_by table key.now }
{
    match key.first() {
        None => Read::Point {
            table,
            key: Key::new(),
        },
        Some(column) => Read::Span {
            table,
            column: *column,
            low: None,
            high: None,
        },
    }
}

/// The read of the row of a key, where there is one, and else of all rows.
fn point_or(table: u32, def: &TableDef, key: Option<Key>) -> Read
    ensures { result ≡ point_or table def.now key }
{
    match key {
        None => whole_by(table, def.key.as_slice()),
        Some(key) => Read::Point { table, key },
    }
}

/// The read of the rows of the next source that may go on with the rows of the sources before it.
pub fn read_by(
    alloc: Global,
    table: u32,
    def: &TableDef,
    access: Access,
    comparisons: &[Comparison],
    prefix: &[Seen],
) -> Result<Read, NoMemory>
    requires { All IsEarly prefix.now }
    ensures { IfOk result (λ read. read ≡ read_by table def.now access comparisons.now prefix.now) }
{
    match access {
        Access::Point => {
            let key = key_ends(alloc, def, comparisons, prefix)?;
            Ok(point_or(table, def, key))
        }
        Access::Span { column } => {
            let low = fit_end(alloc, def, comparisons, prefix, Bound::Low, column)?;
            let high = fit_end(alloc, def, comparisons, prefix, Bound::High, column)?;
            Ok(Read::Span {
                table,
                column,
                low,
                high,
            })
        }
        Access::Whole => Ok(whole_by(table, def.key.as_slice())),
    }
}

/// The declaration of the table of a source.
fn def_of<'a>(defs: &'a [TableDef], step: Step) -> &'a TableDef
    requires { StepFits defs.now step }
    ensures declared { slice_get defs.now step.table ≡ Some result.now }
    ensures fits { AccessFits result.now step.access }
{
    &defs[step.table as usize]
}

/// The read of the rows of the next source: it leaves out no row with which the comparisons hold.
pub fn read_of(
    alloc: Global,
    defs: &[TableDef],
    step: Step,
    comparisons: &[Comparison],
    prefix: &[Seen],
) -> Result<Read, NoMemory>
    requires early { All IsEarly prefix.now }
    requires fits { StepFits defs.now step }
    ensures { IfOk result (IsReadOf defs.now step.table comparisons.now prefix.now) }
{
    let def = def_of(defs, step);
    let read = read_by(alloc, step.table, def, step.access, comparisons, prefix)?;
    Ok(read)
}
