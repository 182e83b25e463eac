//! Names in expressions, resolved to numbers.

ghost use Rattle.std.specs.Prelude.{◌≡◌, IfOk, map};
ghost use Rattle.std.specs.Option.{option_map};
ghost use Rattle.proc_code.specs.Resolved.{term_of};

use crate::numbering::Numbering;
use crate::tree::Term;
use proc_syntax::Expr;
use rel_base::{Boxed, List, NoMemory, Twin};
use std::alloc::Global;

/// The code of an expression within another.
#[cycle(resolve_term)]
fn resolve_inner(
    alloc: Global,
    columns: &Numbering,
    names: &Numbering,
    expr: &Expr,
) -> Result<Boxed<Term>, NoMemory>
    ensures { IfOk result (λ term. term ≡ term_of columns.now names.now expr.now) }
{
    let term = resolve_term(alloc, columns, names, expr)?;
    Boxed::new(alloc, term)
}

/// The code of an expression, where columns and variables have their numbers.
#[cycle(resolve_term)]
pub fn resolve_term(
    alloc: Global,
    columns: &Numbering,
    names: &Numbering,
    expr: &Expr,
) -> Result<Term, NoMemory>
    ensures { IfOk result (λ term. term ≡ term_of columns.now names.now expr.now) }
{
    match expr {
        Expr::Value { value, .. } => Ok(Term::Value(value.copy(alloc)?)),
        Expr::Var(name) => Ok(Term::Var(names.number_or_len(&name.name))),
        Expr::Field { row, column } => Ok(Term::Field {
            slot: names.number_or_len(&row.name),
            column: columns.number_or_len(&column.name),
        }),
        Expr::Now { .. } => Ok(Term::Now),
        Expr::Not { inner, .. } => {
            Ok(Term::Not(resolve_inner(alloc, columns, names, inner.get())?))
        }
        Expr::Neg { inner, .. } => {
            Ok(Term::Neg(resolve_inner(alloc, columns, names, inner.get())?))
        }
        Expr::Paren { inner, .. } => resolve_term(alloc, columns, names, inner.get()),
        Expr::Two { op, left, right } => Ok(Term::Two {
            op: *op,
            left: resolve_inner(alloc, columns, names, left.get())?,
            right: resolve_inner(alloc, columns, names, right.get())?,
        }),
    }
}

/// The code of expressions.
pub fn resolve_terms(
    alloc: Global,
    columns: &Numbering,
    names: &Numbering,
    exprs: &[Expr],
) -> Result<List<Term>, NoMemory>
    ensures { IfOk result (λ terms. terms ≡ map (term_of columns.now names.now) exprs.now) }
{
    let mut terms = List::new(alloc);
    for expr in exprs {
        let term = resolve_term(alloc, columns, names, expr)?;
        terms.push(term)?;
    }
    Ok(terms)
}

/// The code of an end of a span, where it is given.
pub fn resolve_end(
    alloc: Global,
    columns: &Numbering,
    names: &Numbering,
    end: &Option<Expr>,
) -> Result<Option<Term>, NoMemory>
    ensures { IfOk result (λ term. term ≡ option_map (term_of columns.now names.now) end.now) }
{
    match end {
        None => Ok(None),
        Some(expr) => {
            let term = resolve_term(alloc, columns, names, expr)?;
            Ok(Some(term))
        }
    }
}
