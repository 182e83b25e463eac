//! Names in the statements of a procedure, resolved to numbers once its variables are known.

ghost use Rattle.std.specs.Prelude.{◌≡◌, ◌<◌, ◌^◌, IfOk, length, map};
ghost use Rattle.std.specs.Option.{option_map};
ghost use Rattle.proc_code.specs.declared.tree.Action.TheVariants as action;
ghost use Rattle.proc_code.specs.Numbers.{number_of_name, table_number, column_of_table};
ghost use Rattle.proc_code.specs.Resolved.{term_of, setting_of, action_of};

use crate::numbering::Numbering;
use crate::places::{column_of_table, table_number};
use crate::terms::{resolve_end, resolve_term, resolve_terms};
use crate::tree::{Action, Setting, Term};
use proc_syntax::{Change, Expr, Named, Span, Stmt};
use rel_base::{List, Name, NoMemory, Str, TableDef, Twin};
use std::alloc::Global;

/// What resolves the names in the statements of a procedure: the declared tables, and the numbers of columns and variables.
#[derive(Clone, Copy)]
pub struct Resolver<'a> {
    pub alloc: Global,
    pub tables: &'a List<TableDef>,
    pub columns: &'a Numbering,
    pub names: &'a Numbering,
}

impl Resolver<'_> {
    /// The code of expressions.
    fn terms_of(&self, exprs: &List<Expr>) -> Result<List<Term>, NoMemory>
        ensures { IfOk result (λ terms. terms ≡ map (term_of self.now.columns.now self.now.names.now) exprs.now) }
    {
        resolve_terms(self.alloc, self.columns, self.names, exprs.as_slice())
    }

    /// The code of a `let` or of an assignment.
    fn set_of(&self, name: &Named, value: &Expr) -> Result<Action, NoMemory>
        ensures { IfOk result (λ made. made ≡ action.Set (number_of_name self.now.names.now name.now.name) (term_of self.now.columns.now self.now.names.now value.now)) }
    {
        Ok(Action::Set {
            slot: self.names.number_or_len(&name.name),
            value: resolve_term(self.alloc, self.columns, self.names, value)?,
        })
    }

    /// The code of an `if`, of the code of its blocks.
    fn resolve_if(
        &self,
        test: &Expr,
        then: List<Action>,
        other: List<Action>,
    ) -> Result<Action, NoMemory>
        ensures { IfOk result (λ made. made ≡ action.If (term_of self.now.columns.now self.now.names.now test.now) then other) }
    {
        Ok(Action::If {
            test: resolve_term(self.alloc, self.columns, self.names, test)?,
            then,
            other,
        })
    }

    /// The code of a `get`, of the code of its blocks.
    fn resolve_get(
        &self,
        name: &Named,
        table: &Named,
        key: &List<Expr>,
        found: List<Action>,
        absent: List<Action>,
    ) -> Result<Action, NoMemory>
        requires { length self.now.tables.now < 2 ^ 32 }
        ensures { IfOk result (λ made. made ≡ action.Get (number_of_name self.now.names.now name.now.name) (table_number self.now.tables.now table.now.name) (map (term_of self.now.columns.now self.now.names.now) key.now) found absent) }
    {
        Ok(Action::Get {
            slot: self.names.number_or_len(&name.name),
            table: table_number(self.tables, &table.name),
            key: self.terms_of(key)?,
            found,
            absent,
        })
    }

    /// The code of a `for`, of the code of its body.
    fn resolve_for(
        &self,
        name: &Named,
        table: &Named,
        span: &Span<'_>,
        body: List<Action>,
    ) -> Result<Action, NoMemory>
        requires { length self.now.tables.now < 2 ^ 32 }
        ensures { IfOk result (λ made. made ≡ action.For (number_of_name self.now.names.now name.now.name) (table_number self.now.tables.now table.now.name) (column_of_table self.now.tables.now table.now.name span.now.column.now.name) (option_map (term_of self.now.columns.now self.now.names.now) span.now.low.now) (option_map (term_of self.now.columns.now self.now.names.now) span.now.high.now) body) }
    {
        Ok(Action::For {
            slot: self.names.number_or_len(&name.name),
            table: table_number(self.tables, &table.name),
            column: column_of_table(self.tables, &table.name, &span.column.name),
            low: resolve_end(self.alloc, self.columns, self.names, span.low)?,
            high: resolve_end(self.alloc, self.columns, self.names, span.high)?,
            body,
        })
    }

    /// The code of an `insert`.
    fn resolve_insert(&self, table: &Named, values: &List<Expr>) -> Result<Action, NoMemory>
        requires { length self.now.tables.now < 2 ^ 32 }
        ensures { IfOk result (λ made. made ≡ action.Insert (table_number self.now.tables.now table.now.name) (map (term_of self.now.columns.now self.now.names.now) values.now)) }
    {
        Ok(Action::Insert {
            table: table_number(self.tables, &table.name),
            values: self.terms_of(values)?,
        })
    }

    /// The code of an `update`.
    fn resolve_update(
        &self,
        table: &Named,
        key: &List<Expr>,
        changes: &List<Change>,
    ) -> Result<Action, NoMemory>
        requires { length self.now.tables.now < 2 ^ 32 }
        ensures { IfOk result (λ made. made ≡ action.Update (table_number self.now.tables.now table.now.name) (map (term_of self.now.columns.now self.now.names.now) key.now) (map (setting_of self.now.tables.now self.now.columns.now self.now.names.now table.now.name) changes.now)) }
    {
        Ok(Action::Update {
            table: table_number(self.tables, &table.name),
            key: self.terms_of(key)?,
            settings: resolve_settings(self, &table.name, changes.as_slice())?,
        })
    }

    /// The code of a `delete`.
    fn resolve_delete(&self, table: &Named, key: &List<Expr>) -> Result<Action, NoMemory>
        requires { length self.now.tables.now < 2 ^ 32 }
        ensures { IfOk result (λ made. made ≡ action.Delete (table_number self.now.tables.now table.now.name) (map (term_of self.now.columns.now self.now.names.now) key.now)) }
    {
        Ok(Action::Delete {
            table: table_number(self.tables, &table.name),
            key: self.terms_of(key)?,
        })
    }

    /// The code of a `fail`.
    fn resolve_fail(&self, text: &Str) -> Result<Action, NoMemory>
        ensures { IfOk result (λ made. made ≡ action.Fail text.now) }
    {
        Ok(Action::Fail {
            text: text.copy(self.alloc)?,
        })
    }
}

/// The code of a column that an `update` sets.
fn resolve_setting(
    resolver: &Resolver<'_>,
    table: &Name,
    change: &Change,
) -> Result<Setting, NoMemory>
    requires { length resolver.now.tables.now < 2 ^ 32 }
    ensures { IfOk result (λ setting. setting ≡ setting_of resolver.now.tables.now resolver.now.columns.now resolver.now.names.now table.now change.now) }
{
    let Resolver {
        alloc,
        tables,
        columns,
        names,
    } = *resolver;
    Ok(Setting {
        column: column_of_table(tables, table, &change.column.name),
        value: resolve_term(alloc, columns, names, &change.value)?,
    })
}

/// The code of the columns that an `update` sets.
fn resolve_settings(
    resolver: &Resolver<'_>,
    table: &Name,
    changes: &[Change],
) -> Result<List<Setting>, NoMemory>
    requires { length resolver.now.tables.now < 2 ^ 32 }
    ensures { IfOk result (λ settings. settings ≡ map (setting_of resolver.now.tables.now resolver.now.columns.now resolver.now.names.now table.now) changes.now) }
{
    let mut settings = List::new(resolver.alloc);
    for change in changes {
        let setting = resolve_setting(resolver, table, change)?;
        settings.push(setting)?;
    }
    Ok(settings)
}

/// The code of a block.
#[cycle(resolve)]
pub fn resolve_block(resolver: &Resolver<'_>, stmts: &[Stmt]) -> Result<List<Action>, NoMemory>
    requires { length resolver.now.tables.now < 2 ^ 32 }
    ensures { IfOk result (λ actions. actions ≡ map (action_of resolver.now.tables.now resolver.now.columns.now resolver.now.names.now) stmts.now) }
{
    let mut actions = List::new(resolver.alloc);
    for stmt in stmts {
        let action = resolve_stmt(resolver, stmt)?;
        actions.push(action)?;
    }
    Ok(actions)
}

/// The code of a statement.
#[cycle(resolve)]
fn resolve_stmt(resolver: &Resolver<'_>, stmt: &Stmt) -> Result<Action, NoMemory>
    requires { length resolver.now.tables.now < 2 ^ 32 }
    ensures { IfOk result (λ action. action ≡ action_of resolver.now.tables.now resolver.now.columns.now resolver.now.names.now stmt.now) }
{
    match stmt {
        Stmt::Let { name, value } | Stmt::Assign { name, value } => resolver.set_of(name, value),
        Stmt::If { test, then, other } => {
            let other = match other {
                None => List::new(resolver.alloc),
                Some(other) => resolve_block(resolver, other.as_slice())?,
            };
            resolver.resolve_if(test, resolve_block(resolver, then.as_slice())?, other)
        }
        Stmt::Get {
            name,
            table,
            key,
            found,
            absent,
        } => {
            let found = resolve_block(resolver, found.as_slice())?;
            let absent = resolve_block(resolver, absent.as_slice())?;
            resolver.resolve_get(name, table, key, found, absent)
        }
        Stmt::For {
            name,
            table,
            column,
            low,
            high,
            body,
        } => {
            let body = resolve_block(resolver, body.as_slice())?;
            resolver.resolve_for(name, table, &Span { column, low, high }, body)
        }
        Stmt::Insert { table, values } => resolver.resolve_insert(table, values),
        Stmt::Update {
            table,
            key,
            changes,
        } => resolver.resolve_update(table, key, changes),
        Stmt::Delete { table, key } => resolver.resolve_delete(table, key),
        Stmt::Fail { text } => resolver.resolve_fail(text),
    }
}
