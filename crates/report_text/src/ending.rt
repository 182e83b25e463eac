//! The line that ends a report.

ghost use Rattle.std.specs.Prelude.{◌≡◌, ◌++◌, OnOk, IfOk};
ghost use Rattle.std.specs.Option.{option_copied};
ghost use Rattle.report_text.specs.Ending.{end_line, kind_text, stopped_line};

use crate::text::Text;
use proc_syntax::{ChainFault, ChainKind};
use rel_base::{List, NoMemory};
use std::alloc::Global;

/// The name of a kind of fault.
pub fn kind_text(kind: ChainKind) -> &'static str
    ensures { result.now ≡ kind_text kind }
{
    match kind {
        ChainKind::BadHeader => "BadHeader",
        ChainKind::BadLine => "BadLine",
        ChainKind::WrongNumber => "WrongNumber",
        ChainKind::WrongPrev => "WrongPrev",
        ChainKind::TooManyTx => "TooManyTx",
        ChainKind::LineTooLong => "LineTooLong",
        ChainKind::Truncated => "Truncated",
        ChainKind::WrongTime => "WrongTime",
    }
}

/// Where a block file stopped, and why.
fn push_stopped(out: &mut Text, fault: &ChainFault) -> Result<(), NoMemory>
    ensures { OnOk result (out.new ≡ out.old ++ stopped_line fault.now) }
{
    out.push("stopped ")?;
    out.push_number(fault.line)?;
    out.push(" ")?;
    out.push(kind_text(fault.kind))?;
    out.push("\n")
}

/// The last line of a report.
pub fn push_end(out: &mut Text, stop: Option<&ChainFault>) -> Result<(), NoMemory>
    ensures { OnOk result (out.new ≡ out.old ++ end_line (option_copied stop.entry)) }
{
    match stop {
        None => out.push("done\n"),
        Some(fault) => push_stopped(out, fault),
    }
}

/// The line `stopped LINE KIND`, for an answer that has no report. The only error is out of memory.
pub fn stopped_line(alloc: Global, fault: &ChainFault) -> Result<List<u8>, NoMemory>
    ensures { IfOk result (λ bytes. bytes ≡ stopped_line fault.now) }
{
    let mut out = Text::new(alloc);
    push_stopped(&mut out, fault)?;
    Ok(List::from_vec(out.into_bytes()))
}
