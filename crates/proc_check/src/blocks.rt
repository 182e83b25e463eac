//! The check of blocks of statements.

ghost use Rattle.std.specs.Prelude.{◌≡◌, ◌++◌, ◌∷◌, [], map, OnOk};
ghost use Rattle.std.specs.Option.{option_to_list};
ghost use Rattle.proc_check.specs.declared.scope.Sort.TheVariants as sort;
ghost use Rattle.proc_check.specs.Gives.{Gives};
ghost use Rattle.proc_check.specs.Scope.{variable_of};
ghost use Rattle.proc_check.specs.Statements.{block, brings_none, brings_value, keyed, walk_assign, walk_insert, walk_let, walk_rows, walk_stmt, walk_update};

use crate::expressions::{need, type_of};
use crate::fault::{Bad, CheckFault};
use crate::scope::{Scope, Sort, Variable, variable_of};
use crate::statements::{
    check_assign, check_for, check_get, check_insert, check_let, check_update, keyed,
};
use proc_syntax::{Change, Expr, Named, Span, Stmt, TableText};
use rel_base::{Kind, List, NoMemory};
use std::alloc::Global;

/// What the check of statements stands on: the declared tables, and where the memory for names in scope comes from.
#[derive(Clone, Copy)]
struct Base<'a> {
    alloc: Global,
    tables: &'a [TableText],
}

/// Brings into scope what a statement brings, if anything.
fn enter_maybe(alloc: Global, scope: &mut Scope, brought: Option<Variable>) -> Result<(), NoMemory>
    ensures ok { OnOk result (scope.new ≡ scope.old ++ option_to_list brought) }
{
    match brought {
        Some(variable) => scope.enter(alloc, variable),
        None => Ok(()),
    }
}

/// Checks `let name = value`, and answers the variable that it brings into scope.
fn after_let(
    base: &Base<'_>,
    scope: &Scope,
    name: &Named,
    value: &Expr,
) -> Result<Option<Variable>, CheckFault>
    ensures { Gives result (brings_value name.now (walk_let base.now.tables.now scope.now name.now value.now)) }
{
    let kind = check_let(base.tables, scope, name, value)?;
    Ok(Some(variable_of(base.alloc, name, Sort::Value(kind))?))
}

/// Checks `name = value`, which brings nothing into scope.
fn after_assign(
    base: &Base<'_>,
    scope: &Scope,
    name: &Named,
    value: &Expr,
) -> Result<Option<Variable>, Bad>
    ensures { result ≡ brings_none (walk_assign base.now.tables.now scope.now name.now value.now) }
{
    check_assign(base.tables, scope, name, value)?;
    Ok(None)
}

/// Checks `insert table (values)`, which brings nothing into scope.
fn after_insert(
    base: &Base<'_>,
    scope: &Scope,
    table: &Named,
    values: &List<Expr>,
) -> Result<Option<Variable>, Bad>
    ensures { result ≡ brings_none (walk_insert base.now.tables.now scope.now table.now values.now) }
{
    check_insert(base.tables, scope, table, values.as_slice())?;
    Ok(None)
}

/// Checks `update table key (key) set changes`, which brings nothing into scope.
fn after_update(
    base: &Base<'_>,
    scope: &Scope,
    table: &Named,
    key: &List<Expr>,
    changes: &List<Change>,
) -> Result<Option<Variable>, Bad>
    ensures { result ≡ brings_none (walk_update base.now.tables.now scope.now table.now key.now changes.now) }
{
    check_update(
        base.tables,
        scope,
        table,
        key.as_slice(),
        changes.as_slice(),
    )?;
    Ok(None)
}

/// Checks `delete table key (key)`, which brings nothing into scope.
fn after_delete(
    base: &Base<'_>,
    scope: &Scope,
    table: &Named,
    key: &List<Expr>,
) -> Result<Option<Variable>, Bad>
    ensures { result ≡ brings_none (keyed base.now.tables.now scope.now table.now key.now) }
{
    keyed(base.tables, scope, table, key.as_slice())?;
    Ok(None)
}

/// Checks a statement, and answers the variable that it brings into scope. The scope is then as before.
#[cycle(walks)]
fn check_stmt(
    base: &Base<'_>,
    scope: &mut Scope,
    stmt: &Stmt,
) -> Result<Option<Variable>, CheckFault>
    ensures gives { Gives result (walk_stmt base.now.tables.now stmt.now scope.old) }
    ensures same { OnOk result (scope.new ≡ scope.old) }
{
    match stmt {
        Stmt::Let { name, value } => after_let(base, scope, name, value),
        Stmt::Assign { name, value } => Ok(after_assign(base, scope, name, value)?),
        Stmt::If { test, then, other } => {
            need(Some(Kind::Bool), type_of(base.tables, scope, test))?;
            check_stmts(base, scope, then.as_slice())?;
            match other {
                None => Ok(None),
                Some(other) => check_branch(base, scope, other.as_slice()),
            }
        }
        Stmt::Get {
            name,
            table,
            key,
            found,
            absent,
        } => {
            let number = check_get(base.tables, scope, name, table, key.as_slice())?;
            check_held(base, scope, name, number, found.as_slice())?;
            check_branch(base, scope, absent.as_slice())
        }
        Stmt::For {
            name,
            table,
            column,
            low,
            high,
            body,
        } => check_rows(base, scope, name, table, &Span { column, low, high }, body),
        Stmt::Insert { table, values } => Ok(after_insert(base, scope, table, values)?),
        Stmt::Update {
            table,
            key,
            changes,
        } => Ok(after_update(base, scope, table, key, changes)?),
        Stmt::Delete { table, key } => Ok(after_delete(base, scope, table, key)?),
        Stmt::Fail { .. } => Ok(None),
    }
}

/// Checks a `for` with its block, which brings nothing into scope. The scope is then as before.
#[cycle(walks)]
fn check_rows(
    base: &Base<'_>,
    scope: &mut Scope,
    name: &Named,
    table: &Named,
    span: &Span<'_>,
    body: &List<Stmt>,
) -> Result<Option<Variable>, CheckFault>
    ensures gives { Gives result (walk_rows base.now.tables.now scope.old name.now table.now span.now.column.now span.now.low.now span.now.high.now (map (walk_stmt base.now.tables.now) body.now)) }
    ensures same { OnOk result (scope.new ≡ scope.old) }
{
    let number = check_for(base.tables, scope, name, table, span)?;
    check_held(base, scope, name, number, body.as_slice())?;
    Ok(None)
}

/// Checks a block in which a name stands for a row of the table of a number. The scope is then as before.
#[cycle(walks)]
fn check_held(
    base: &Base<'_>,
    scope: &mut Scope,
    name: &Named,
    table: usize,
    stmts: &[Stmt],
) -> Result<(), CheckFault>
    ensures gives { Gives result (block (map (walk_stmt base.now.tables.now) stmts.now) (scope.old ++ variable_of name.now (sort.Row table) ∷ [])) }
    ensures same { OnOk result (scope.new ≡ scope.old) }
{
    let outside = scope.len();
    scope.enter(base.alloc, variable_of(base.alloc, name, Sort::Row(table))?)?;
    check_stmts(base, scope, stmts)?;
    scope.leave(outside);
    Ok(())
}

/// Checks the last block of a statement that brings nothing into scope. The scope is then as before.
#[cycle(walks)]
fn check_branch(
    base: &Base<'_>,
    scope: &mut Scope,
    stmts: &[Stmt],
) -> Result<Option<Variable>, CheckFault>
    ensures gives { Gives result (brings_none (block (map (walk_stmt base.now.tables.now) stmts.now) scope.old)) }
    ensures same { OnOk result (scope.new ≡ scope.old) }
{
    check_stmts(base, scope, stmts)?;
    Ok(None)
}

/// Checks statements in their order. The scope is then as before.
#[cycle(walks)]
fn check_stmts(base: &Base<'_>, scope: &mut Scope, stmts: &[Stmt]) -> Result<(), CheckFault>
    ensures gives { Gives result (block (map (walk_stmt base.now.tables.now) stmts.now) scope.old) }
    ensures same { OnOk result (scope.new ≡ scope.old) }
{
    let outside = scope.len();
    for stmt in stmts {
        let brought = check_stmt(base, scope, stmt)?;
        enter_maybe(base.alloc, scope, brought)?;
    }
    scope.leave(outside);
    Ok(())
}

/// Checks a block. The scope is then as before.
pub fn check_block(
    alloc: Global,
    tables: &[TableText],
    scope: &mut Scope,
    stmts: &[Stmt],
) -> Result<(), CheckFault>
    ensures gives { Gives result (block (map (walk_stmt tables.now) stmts.now) scope.old) }
    ensures same { OnOk result (scope.new ≡ scope.old) }
{
    check_stmts(&Base { alloc, tables }, scope, stmts)
}
