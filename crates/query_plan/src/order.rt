//! Rows in the order of some of their items.

ghost use Rattle.std.specs.Prelude.{◌≡◌, IfOk};
ghost use Rattle.query_plan.specs.Answer.{in_order, row_cmp};

use crate::cell::{cell_cmp, value_at};
use rel_base::{List, NoMemory, Row};
use std::cmp::Ordering;

/// How two rows are ordered by the items of some numbers, from 1.
fn row_cmp(order: &[u32], a: &Row, b: &Row) -> Ordering
    ensures { result ≡ row_cmp order.now a.now b.now }
{
    for number in order {
        let column = number.saturating_sub(1);
        match cell_cmp(value_at(a, column), value_at(b, column)) {
            Ordering::Equal => {}
            ordering => return ordering,
        }
    }
    Ordering::Equal
}

/// Rows in the order of the items of some numbers, from 1. Rows that agree there stand as before.
pub fn in_order(order: &[u32], rows: List<Row>) -> Result<List<Row>, NoMemory>
    ensures { IfOk result (λ ordered. ordered ≡ in_order order.now rows) }
{
    let mut rows = rows.into_vec();
    rows.sort_by(|a, b| row_cmp(order, a, b))?;
    Ok(List::from_vec(rows))
}
