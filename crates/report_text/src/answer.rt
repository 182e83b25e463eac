//! The lines of the answer of a query.

ghost use Rattle.std.specs.Prelude.{◌≡◌, ◌++◌, OnOk, IfOk, flat_map};
ghost use Rattle.report_text.specs.Answers.{answer_line, answers_text};

use crate::text::Text;
use crate::value::push_values;
use rel_base::{List, NoMemory, Row};
use std::alloc::Global;

/// A row of an answer: its values.
fn push_answer(out: &mut Text, row: &Row) -> Result<(), NoMemory>
    ensures { OnOk result (out.new ≡ out.old ++ answer_line row.now) }
{
    out.push("answer")?;
    push_values(out, row.as_slice())?;
    out.push("\n")
}

/// Rows of an answer, in order.
fn push_answers(out: &mut Text, rows: &[Row]) -> Result<(), NoMemory>
    ensures { OnOk result (out.new ≡ out.old ++ flat_map answer_line rows.now) }
{
    for row in rows {
        push_answer(out, row)?;
    }
    Ok(())
}

/// A line `answer` with its values for each row of an answer, in order. Every line ends with a newline. The only error is that memory
/// ran out.
pub fn answers(alloc: Global, rows: &List<Row>) -> Result<List<u8>, NoMemory>
    ensures { IfOk result (λ bytes. bytes ≡ answers_text rows.now) }
{
    let mut out = Text::new(alloc);
    push_answers(&mut out, rows.as_slice())?;
    Ok(List::from_vec(out.into_bytes()))
}
