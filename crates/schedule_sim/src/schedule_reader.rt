//! Schedules, read in pieces.

ghost use Rattle.std.specs.Prelude.{◌≡◌, ◌++◌, ◌≤◌, ℕ, List, [], IfOk, OnOk};
ghost use Rattle.std.specs.List.{AllByRecursion};
ghost use Rattle.std.specs.Option.{option_to_list};
ghost use Rattle.schedule_sim.specs.Reading.{Gives, GivesLine, GivesReader, GivesSteps, WasFed, after_line, after_part};
ghost use Rattle.schedule_sim.specs.Schedules.{schedule_form, schedule_of, schedule_so_far};
ghost use Rattle.schedule_sim.specs.Steps.{IsStep};
ghost use Rattle.tx_text.specs.Listing.{items_at, most_lines};

use crate::parse::{ScheduleFault, take_line};
use crate::step::{Schedule, Step};
use rel_base::{List, NoMemory};
use std::alloc::Global;
use tx_text::held::{extend, joined};
use tx_text::{MOST_LINE_BYTES, split_line};

/// The step, if there is one, of a line that began with the bytes held and ends with others.
fn take_end(
    alloc: Global,
    line: u64,
    held: &[u8],
    end: &[u8],
) -> Result<Option<Step>, ScheduleFault>
    ensures taken { GivesLine result line (items_at schedule_form line (held.now ++ end.now)) }
    ensures low { OnOk result (line ≤ most_lines) }
{
    if held.is_empty() {
        return take_line(line, end);
    }
    let text = joined(alloc, held, end)?;
    take_line(line, &text)
}

/// Puts a step, if there is one, at the end of others.
fn push_step_if(steps: &mut List<Step>, step: Option<Step>) -> Result<(), NoMemory>
    ensures { OnOk result (steps.new ≡ steps.old ++ option_to_list step) }
{
    if let Some(step) = step {
        steps.push(step)?;
    }
    Ok(())
}

/// A reader of a schedule, which is fed with its file piece by piece.
///
/// It keeps the steps of the lines that ended, and the bytes after the last newline. Contracts say that it `WasFed` the bytes
/// that it was fed. One that meets a bad line, or finds no memory, is used up, so no piece can follow.
#[derive(Drop)]
pub struct ScheduleReader {
    alloc: Global,
    line: u64,
    steps: List<Step>,
    held: List<u8>,
}

impl ScheduleReader {
    /// A reader that was fed with nothing yet.
    pub fn new(alloc: Global) -> ScheduleReader
        ensures { WasFed result [] }
    {
        ScheduleReader {
            alloc,
            line: 1,
            steps: List::new(alloc),
            held: List::new(alloc),
        }
    }

    // Ends the line that has begun.
    fn end_line(self, end: &[u8]) -> Result<ScheduleReader, ScheduleFault>
        ensures { GivesReader result (after_line self end.now) }
    {
        let ScheduleReader {
            alloc,
            line,
            mut steps,
            held,
        } = self;
        let step = take_end(alloc, line, held.as_slice(), end)?;
        push_step_if(&mut steps, step)?;
        Ok(ScheduleReader {
            alloc,
            line: line + 1,
            steps,
            held: List::new(alloc),
        })
    }

    // Takes bytes in which no line ends.
    fn hold(self, part: &[u8]) -> Result<ScheduleReader, ScheduleFault>
        ensures { GivesReader result (after_part self part.now) }
    {
        let ScheduleReader {
            alloc,
            line,
            steps,
            mut held,
        } = self;
        if held.len().saturating_add(part.len()) > MOST_LINE_BYTES {
            return Err(ScheduleFault::BadLine { line });
        }
        extend(alloc, &mut held, part)?;
        Ok(ScheduleReader {
            alloc,
            line,
            steps,
            held,
        })
    }

    /// Takes the next piece of the file.
    ///
    /// `BadLine` names the first bad line. It comes with the piece in which that line's newline stands, or the 4,097th byte of a
    /// line that is too long.
    pub fn feed(self, piece: &[u8]) -> Result<ScheduleReader, ScheduleFault>
        ensures { (bytes : List ℕ) → WasFed self bytes → GivesReader result (schedule_so_far (bytes ++ piece.now)) }
    {
        let mut reader = self;
        let mut rest = piece;
        while let Some((end, after)) = split_line(rest) {
            reader = reader.end_line(end)?;
            rest = after;
        }
        reader.hold(rest)
    }

    /// Ends the file: its steps where the bytes so far are a whole schedule, and else its first bad line.
    pub fn end(self) -> Result<Schedule, u64>
        ensures steps { (bytes : List ℕ) → WasFed self bytes → GivesSteps result (schedule_of bytes) }
        ensures actors { (bytes : List ℕ) → WasFed self bytes → IfOk result (λ schedule. AllByRecursion IsStep schedule.steps) }
    {
        let ScheduleReader {
            alloc: _,
            line,
            steps,
            held,
        } = self;
        if line > 1 && held.is_empty() {
            Ok(Schedule { steps })
        } else {
            Err(line)
        }
    }
}

/// The steps of a text: `schedule 1`, and then one step a line. The first line that is not so is `BadLine`, and so is one that
/// has no newline, and the 1,000,002nd.
pub fn parse_schedule(alloc: Global, text: &[u8]) -> Result<Schedule, ScheduleFault>
    ensures steps { Gives result (schedule_of text.now) }
    ensures actors { IfOk result (λ schedule. AllByRecursion IsStep schedule.steps) }
{
    let reader = ScheduleReader::new(alloc).feed(text)?;
    match reader.end() {
        Ok(schedule) => Ok(schedule),
        Err(line) => Err(ScheduleFault::BadLine { line }),
    }
}
