//! Expressions as texts.

ghost use Rattle.std.specs.Prelude.{◌≡◌, ◌++◌, OnOk, codes};
ghost use Rattle.proc_print.specs.Printed.{expr_text, op_text};

use crate::writing::{Printed, push, push_value};
use proc_syntax::{Expr, Named, Op};
use rel_base::NoMemory;

/// An operator, with a space on either side.
fn op_text(op: Op) -> &'static str
    ensures { result.now ≡ op_text op }
{
    match op {
        Op::Or => " or ",
        Op::And => " and ",
        Op::Eq => " = ",
        Op::Ne => " != ",
        Op::Lt => " < ",
        Op::Le => " <= ",
        Op::Gt => " > ",
        Op::Ge => " >= ",
        Op::Add => " + ",
        Op::Sub => " - ",
        Op::Join => " ++ ",
        Op::Mul => " * ",
        Op::Div => " / ",
        Op::Rem => " % ",
    }
}

/// Writes a name at the end.
pub fn push_name(out: &mut Vec<u8>, named: &Named) -> Result<(), NoMemory>
    ensures { OnOk result (out.new.items ≡ out.old.items ++ named.now.name) }
{
    push(out, named.name.as_str().as_bytes())
}

/// Writes `ROW.COLUMN` at the end.
fn push_field(out: &mut Vec<u8>, row: &Named, column: &Named) -> Result<(), NoMemory>
    ensures { OnOk result (out.new.items ≡ out.old.items ++ row.now.name ++ codes "." ++ column.now.name) }
{
    push_name(out, row)?;
    push(out, b".")?;
    push_name(out, column)
}

/// Writes an expression at the end.
pub fn push_expr(out: &mut Vec<u8>, expr: &Expr) -> Result<(), NoMemory>
    ensures { OnOk result (out.new.items ≡ out.old.items ++ expr_text expr.now) }
{
    match expr {
        Expr::Value { value, .. } => push_value(out, value),
        Expr::Var(name) => push_name(out, name),
        Expr::Field { row, column } => push_field(out, row, column),
        Expr::Now { .. } => push(out, b"now"),
        Expr::Not { inner, .. } => {
            push(out, b"not ")?;
            push_expr(out, inner.get())
        }
        Expr::Neg { inner, .. } => {
            push(out, b"-")?;
            push_expr(out, inner.get())
        }
        Expr::Paren { inner, .. } => {
            push(out, b"(")?;
            push_expr(out, inner.get())?;
            push(out, b")")
        }
        Expr::Two { op, left, right } => {
            push_expr(out, left.get())?;
            push(out, op_text(*op).as_bytes())?;
            push_expr(out, right.get())
        }
    }
}

impl Printed for Expr {
    ghost text = { expr_text };

    fn push_to(&self, out: &mut Vec<u8>) -> Result<(), NoMemory> {
        push_expr(out, self)
    }
}
