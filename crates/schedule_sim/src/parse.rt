//! The lines of a schedule, each by its number.

ghost use Rattle.std.specs.Prelude.{◌≡◌, ◌≤◌, OnOk};
ghost use Rattle.schedule_sim.specs.Reading.{GivesLine};
ghost use Rattle.schedule_sim.specs.Schedules.{schedule_form};
ghost use Rattle.tx_text.specs.Listing.{items_at, no_item, one_item, most_lines};

use crate::read::step_of;
use crate::step::Step;
use rel_base::NoMemory;
use tx_text::MOST_LINE_BYTES;

/// Why a text is no schedule.
#[derive(Clone, Copy, PartialEq, Eq)]
pub enum ScheduleFault {
    /// Memory ran out.
    NoMemory,
    /// The line of this number, from 1, is the first bad one.
    BadLine { line: u64 },
}

impl From<NoMemory> for ScheduleFault {
    ghost use Rattle.std.specs.Prelude.{◌≡◌};
    ghost use Rattle.schedule_sim.specs.declared.parse.ScheduleFault.TheVariants as fault;

    ghost from_gives = { λ _ e. e ≡ fault.NoMemory };

    fn from(_error: NoMemory) -> ScheduleFault {
        ScheduleFault::NoMemory
    }
}

/// The number of steps that a schedule may have.
pub const MOST_SCHEDULE_STEPS: u64 = 1_000_000;

/// The first line, which gives no step.
fn take_header(text: &[u8]) -> Result<Option<Step>, ScheduleFault>
    ensures { GivesLine result 1 (no_item schedule_form text.now) }
{
    if text != b"schedule 1".as_slice() {
        return Err(ScheduleFault::BadLine { line: 1 });
    }
    Ok(None)
}

/// A line after the first.
fn take_step(line: u64, text: &[u8]) -> Result<Option<Step>, ScheduleFault>
    ensures taken { GivesLine result line (one_item schedule_form line text.now) }
    ensures low { OnOk result (line ≤ most_lines) }
{
    if line > MOST_SCHEDULE_STEPS + 1 {
        return Err(ScheduleFault::BadLine { line });
    }
    match step_of(text) {
        Some(step) => Ok(Some(step)),
        None => Err(ScheduleFault::BadLine { line }),
    }
}

/// The step of a line, if it gives one.
pub fn take_line(line: u64, text: &[u8]) -> Result<Option<Step>, ScheduleFault>
    ensures taken { GivesLine result line (items_at schedule_form line text.now) }
    ensures low { OnOk result (line ≤ most_lines) }
{
    if text.len() > MOST_LINE_BYTES {
        return Err(ScheduleFault::BadLine { line });
    }
    if line == 1 {
        take_header(text)
    } else {
        take_step(line, text)
    }
}
