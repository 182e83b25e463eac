//! Statements as lines.

ghost use Rattle.std.specs.Prelude.{◌≡◌, ◌++◌, OnOk, IfOk, codes, map, flat_map};
ghost use Rattle.proc_print.specs.Printed.{block_text, change_text, delete_text, end_text, ends_text, expr_text, fail_text, insert_text, keyed_text, line_text, span_text, stmt_text, update_text};

use crate::printed_expressions::{push_expr, push_name};
use crate::writing::{Printed, push, push_in_parens, push_listed};
use literals::push_text;
use proc_syntax::{Change, Expr, Named, Stmt};
use rel_base::{NoMemory, Str};
use std::alloc::Global;

impl Printed for Change {
    ghost text = { change_text };

    fn push_to(&self, out: &mut Vec<u8>) -> Result<(), NoMemory> {
        push_name(out, &self.column)?;
        push(out, b" = ")?;
        push_expr(out, &self.value)
    }
}

/// Writes a name and the value that it gets at the end.
fn push_setting(out: &mut Vec<u8>, name: &Named, value: &Expr) -> Result<(), NoMemory>
    ensures { OnOk result (out.new.items ≡ out.old.items ++ name.now.name ++ codes " = " ++ expr_text value.now ++ codes ";") }
{
    push_name(out, name)?;
    push(out, b" = ")?;
    push_expr(out, value)?;
    push(out, b";")
}

/// Writes `let NAME = VALUE;` at the end.
fn push_let(out: &mut Vec<u8>, name: &Named, value: &Expr) -> Result<(), NoMemory>
    ensures { OnOk result (out.new.items ≡ out.old.items ++ codes "let " ++ name.now.name ++ codes " = " ++ expr_text value.now ++ codes ";") }
{
    push(out, b"let ")?;
    push_setting(out, name, value)
}

/// Writes a table and the key of one of its rows at the end.
fn push_keyed(out: &mut Vec<u8>, table: &Named, key: &[Expr]) -> Result<(), NoMemory>
    ensures { OnOk result (out.new.items ≡ out.old.items ++ keyed_text table.now key.now) }
{
    push_name(out, table)?;
    push(out, b" key ")?;
    push_in_parens(out, key)
}

/// Writes an end of a span at the end, after its word, where it is given.
fn push_end(out: &mut Vec<u8>, word: &[u8], end: &Option<Expr>) -> Result<(), NoMemory>
    ensures { OnOk result (out.new.items ≡ out.old.items ++ end_text word.now end.now) }
{
    match end {
        None => Ok(()),
        Some(expr) => {
            push(out, word)?;
            push_expr(out, expr)
        }
    }
}

/// Writes `insert TABLE (VALUES);` at the end.
#[tactic(auto, unfolding(crate::specs::Printed::insert_text))]
fn push_insert(out: &mut Vec<u8>, table: &Named, values: &[Expr]) -> Result<(), NoMemory>
    ensures { OnOk result (out.new.items ≡ out.old.items ++ insert_text table.now values.now) }
{
    push(out, b"insert ")?;
    push_name(out, table)?;
    push(out, b" ")?;
    push_in_parens(out, values)?;
    push(out, b";")
}

/// Writes `update TABLE key (KEY) set CHANGES;` at the end.
#[tactic(auto, unfolding(crate::specs::Printed::update_text))]
fn push_update(
    out: &mut Vec<u8>,
    table: &Named,
    key: &[Expr],
    changes: &[Change],
) -> Result<(), NoMemory>
    ensures { OnOk result (out.new.items ≡ out.old.items ++ update_text table.now key.now changes.now) }
{
    push(out, b"update ")?;
    push_keyed(out, table, key)?;
    push(out, b" set ")?;
    push_listed(out, changes)?;
    push(out, b";")
}

/// Writes `for NAME in TABLE span on COLUMN` at the end.
#[tactic(auto, unfolding(crate::specs::Printed::span_text))]
fn push_span(out: &mut Vec<u8>, name: &Named, table: &Named, column: &Named) -> Result<(), NoMemory>
    ensures { OnOk result (out.new.items ≡ out.old.items ++ span_text name.now table.now column.now) }
{
    push(out, b"for ")?;
    push_name(out, name)?;
    push(out, b" in ")?;
    push_name(out, table)?;
    push(out, b" span on ")?;
    push_name(out, column)
}

/// Writes ` from LOW to HIGH ` at the end, of which each end may be absent.
#[tactic(auto, unfolding(crate::specs::Printed::ends_text))]
fn push_ends(out: &mut Vec<u8>, low: &Option<Expr>, high: &Option<Expr>) -> Result<(), NoMemory>
    ensures { OnOk result (out.new.items ≡ out.old.items ++ ends_text low.now high.now) }
{
    push_end(out, b" from ", low)?;
    push_end(out, b" to ", high)?;
    push(out, b" ")
}

/// Writes `for NAME in TABLE span on COLUMN from LOW to HIGH ` at the end, of which each end may be absent.
fn push_for_head(
    out: &mut Vec<u8>,
    name: &Named,
    table: &Named,
    column: &Named,
    low: &Option<Expr>,
    high: &Option<Expr>,
) -> Result<(), NoMemory>
    ensures { OnOk result (out.new.items ≡ out.old.items ++ span_text name.now table.now column.now ++ ends_text low.now high.now) }
{
    push_span(out, name, table, column)?;
    push_ends(out, low, high)
}

/// Writes `if TEST ` at the end.
fn push_test(out: &mut Vec<u8>, test: &Expr) -> Result<(), NoMemory>
    ensures { OnOk result (out.new.items ≡ out.old.items ++ codes "if " ++ expr_text test.now ++ codes " ") }
{
    push(out, b"if ")?;
    push_expr(out, test)?;
    push(out, b" ")
}

/// Writes `get NAME from TABLE key (KEY) ` at the end.
fn push_point(out: &mut Vec<u8>, name: &Named, table: &Named, key: &[Expr]) -> Result<(), NoMemory>
    ensures { OnOk result (out.new.items ≡ out.old.items ++ codes "get " ++ name.now.name ++ codes " from " ++ keyed_text table.now key.now ++ codes " ") }
{
    push(out, b"get ")?;
    push_name(out, name)?;
    push(out, b" from ")?;
    push_keyed(out, table, key)?;
    push(out, b" ")
}

/// Writes `delete TABLE key (KEY);` at the end.
#[tactic(auto, unfolding(crate::specs::Printed::delete_text))]
fn push_delete(out: &mut Vec<u8>, table: &Named, key: &[Expr]) -> Result<(), NoMemory>
    ensures { OnOk result (out.new.items ≡ out.old.items ++ delete_text table.now key.now) }
{
    push(out, b"delete ")?;
    push_keyed(out, table, key)?;
    push(out, b";")
}

/// Writes `fail TEXT;` at the end.
#[tactic(auto, unfolding(crate::specs::Printed::fail_text))]
fn push_fail(out: &mut Vec<u8>, text: &Str) -> Result<(), NoMemory>
    ensures { OnOk result (out.new.items ≡ out.old.items ++ fail_text text.now) }
{
    push(out, b"fail ")?;
    push_text(out, text.as_str())?;
    push(out, b";")
}

/// A margin with two spaces more.
fn deeper(alloc: Global, margin: &[u8]) -> Result<Vec<u8>, NoMemory>
    ensures { IfOk result (λ made. made.items ≡ margin.now ++ codes "  ") }
{
    let mut made = Vec::from_slice(alloc, margin)?;
    push(&mut made, b"  ")?;
    Ok(made)
}

/// Writes the statements of a block at the end, each on a line after the margin.
#[cycle(lines)]
fn push_lines(
    alloc: Global,
    out: &mut Vec<u8>,
    margin: &[u8],
    stmts: &[Stmt],
) -> Result<(), NoMemory>
    ensures { OnOk result (out.new.items ≡ out.old.items ++ flat_map (line_text margin.now) (map stmt_text stmts.now)) }
{
    for stmt in stmts {
        push(out, margin)?;
        push_stmt(alloc, out, margin, stmt)?;
        push(out, b"\n")?;
    }
    Ok(())
}

/// Writes a block at the end, of which the last brace stands after the margin.
#[cycle(lines)]
pub fn push_block(
    alloc: Global,
    out: &mut Vec<u8>,
    margin: &[u8],
    stmts: &[Stmt],
) -> Result<(), NoMemory>
    ensures { OnOk result (out.new.items ≡ out.old.items ++ block_text (map stmt_text stmts.now) margin.now) }
{
    let inner = deeper(alloc, margin)?;
    push(out, b"{\n")?;
    push_lines(alloc, out, inner.as_slice(), stmts)?;
    push(out, margin)?;
    push(out, b"}")
}

/// Writes the block of an `else` at the end.
#[cycle(lines)]
fn push_else(
    alloc: Global,
    out: &mut Vec<u8>,
    margin: &[u8],
    stmts: &[Stmt],
) -> Result<(), NoMemory>
    ensures { OnOk result (out.new.items ≡ out.old.items ++ codes " else " ++ block_text (map stmt_text stmts.now) margin.now) }
{
    push(out, b" else ")?;
    push_block(alloc, out, margin, stmts)
}

/// Writes a statement at the end, of which the blocks close after the margin.
#[cycle(lines)]
fn push_stmt(alloc: Global, out: &mut Vec<u8>, margin: &[u8], stmt: &Stmt) -> Result<(), NoMemory>
    ensures { OnOk result (out.new.items ≡ out.old.items ++ stmt_text stmt.now margin.now) }
{
    match stmt {
        Stmt::Let { name, value } => push_let(out, name, value),
        Stmt::Assign { name, value } => push_setting(out, name, value),
        Stmt::If { test, then, other } => {
            push_test(out, test)?;
            push_block(alloc, out, margin, then.as_slice())?;
            let Some(other) = other else { return Ok(()) };
            push_else(alloc, out, margin, other.as_slice())
        }
        Stmt::Get {
            name,
            table,
            key,
            found,
            absent,
        } => {
            push_point(out, name, table, key.as_slice())?;
            push_block(alloc, out, margin, found.as_slice())?;
            push_else(alloc, out, margin, absent.as_slice())
        }
        Stmt::For {
            name,
            table,
            column,
            low,
            high,
            body,
        } => {
            push_for_head(out, name, table, column, low, high)?;
            push_block(alloc, out, margin, body.as_slice())
        }
        Stmt::Insert { table, values } => push_insert(out, table, values.as_slice()),
        Stmt::Update {
            table,
            key,
            changes,
        } => push_update(out, table, key.as_slice(), changes.as_slice()),
        Stmt::Delete { table, key } => push_delete(out, table, key.as_slice()),
        Stmt::Fail { text } => push_fail(out, text),
    }
}
