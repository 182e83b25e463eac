//! The kinds of expressions.

ghost use Rattle.std.specs.Prelude.{◌≡◌, Some};
ghost use Rattle.proc_check.specs.Kinds.{is_wanted, need, one, operand_kind, result_kind, left_kind, two, field_kind, type_of};

use crate::fault::{Bad, BadKind};
use crate::named::refuse;
use crate::scope::Scope;
use crate::tables::known_column;
use proc_syntax::{Expr, Named, Op, TableText};
use rel_base::Kind;

/// An expression: the line of its first token, and its kind or its first fault.
#[derive(Clone, Copy)]
pub struct Typed {
    pub line: u32,
    pub kind: Result<Kind, Bad>,
}

/// Whether a kind is the wanted one.
fn is_wanted(wanted: Option<Kind>, kind: Kind) -> bool
    ensures { result ≡ is_wanted wanted kind }
{
    match (wanted, kind) {
        (Some(Kind::Int), Kind::Int) => true,
        (Some(Kind::Text), Kind::Text) => true,
        (Some(Kind::Bool), Kind::Bool) => true,
        (Some(Kind::Bytes), Kind::Bytes) => true,
        _ => false,
    }
}

/// Checks that an expression has the wanted kind.
pub fn need(wanted: Option<Kind>, typed: Typed) -> Result<(), Bad>
    ensures { result ≡ need wanted typed }
{
    let kind = typed.kind?;
    refuse(!is_wanted(wanted, kind), typed.line, BadKind::WrongKind)
}

/// An operator before an operand of a kind, which gives that kind.
fn one(kind: Kind, operand: Typed) -> Result<Kind, Bad>
    ensures { result ≡ one kind operand }
{
    need(Some(kind), operand)?;
    Ok(kind)
}

/// The kind that an operator needs on both sides. A comparison takes any, the same on both.
fn operand_kind(op: Op) -> Option<Kind>
    ensures { result ≡ operand_kind op }
{
    match op {
        Op::Or | Op::And => Some(Kind::Bool),
        Op::Eq | Op::Ne | Op::Lt | Op::Le | Op::Gt | Op::Ge => None,
        Op::Add | Op::Sub | Op::Mul | Op::Div | Op::Rem => Some(Kind::Int),
        Op::Join => Some(Kind::Text),
    }
}

/// The kind of the left operand, which is compared where the operator needs a kind.
fn left_kind(wanted: Option<Kind>, left: Typed) -> Result<Kind, Bad>
    ensures { result ≡ left_kind wanted left }
{
    match wanted {
        None => left.kind,
        Some(kind) => one(kind, left),
    }
}

/// An operator between two operands. The left one is compared first.
fn two(wanted: Option<Kind>, left: Typed, right: Typed) -> Result<Kind, Bad>
    ensures { result ≡ two wanted left right }
{
    let kind = left_kind(wanted, left)?;
    need(Some(kind), right)?;
    Ok(wanted.unwrap_or(Kind::Bool))
}

/// The kind of the column of a row variable.
fn field_kind(tables: &[TableText], scope: &Scope, row: &Named, column: &Named) -> Result<Kind, Bad>
    ensures { result ≡ field_kind tables.now scope.now row.now column.now }
{
    let table = scope.row_table(row)?;
    known_column(tables, table, column)
}

/// Finds the kind of an expression, or its first fault.
pub fn type_of(tables: &[TableText], scope: &Scope, expr: &Expr) -> Typed
    ensures { result ≡ type_of tables.now scope.now expr.now }
{
    match expr {
        Expr::Value { value, line } => Typed {
            line: *line,
            kind: Ok(value.kind()),
        },
        Expr::Var(name) => Typed {
            line: name.line,
            kind: scope.value_kind(name),
        },
        Expr::Field { row, column } => Typed {
            line: row.line,
            kind: field_kind(tables, scope, row, column),
        },
        Expr::Now { line } => Typed {
            line: *line,
            kind: Ok(Kind::Int),
        },
        Expr::Not { inner, line } => Typed {
            line: *line,
            kind: one(Kind::Bool, type_of(tables, scope, inner.get())),
        },
        Expr::Neg { inner, line } => Typed {
            line: *line,
            kind: one(Kind::Int, type_of(tables, scope, inner.get())),
        },
        Expr::Paren { inner, line } => Typed {
            line: *line,
            kind: type_of(tables, scope, inner.get()).kind,
        },
        Expr::Two { op, left, right } => {
            let left = type_of(tables, scope, left.get());
            let right = type_of(tables, scope, right.get());
            Typed {
                line: left.line,
                kind: two(operand_kind(*op), left, right),
            }
        }
    }
}
