//! The file of a schedule, read piece by piece to its end or to its first bad line.

ghost use Rattle.std.specs.Prelude.{◌≡◌, IfOk, IfSome, length};
ghost use Rattle.std.specs.List.{AllByRecursion};
ghost use Rattle.bcdb.specs.Plan.{AllowsPlan, AllowsSchedule, Counted, RoseAt, ScheduleFile, planned_if};
ghost use Rattle.bcdb.specs.ScheduleReading.{HasFed, LeadsOn};
ghost use Rattle.bcdb.specs.Sources.{steps_in};
ghost use Rattle.edge_traits.specs.Causes.{Keeps, Rose, piece_bytes};
ghost use Rattle.schedule_sim.specs.Reading.{GivesSteps};
ghost use Rattle.schedule_sim.specs.Schedules.{BadLinesLast, SchedulesAreBounded, schedule_of};
ghost use Rattle.schedule_sim.specs.Steps.{IsStep};

use crate::fault::FilesFault;
use cli_words::Word;
use edge_traits::{Shelf, make_buffer};
use rel_base::List;
use schedule_sim::laws::{bad_lines_last, schedules_are_bounded};
use schedule_sim::{Schedule, ScheduleFault, ScheduleReader};
use std::alloc::Global;

/// What one more piece of a file came to.
#[derive(Drop)]
pub enum SchedulePiece {
    /// So many bytes more were read.
    More(usize, ScheduleReader),
    /// The file has ended, or stopped at its first bad line.
    Whole(Result<Schedule, u64>),
}

// Reads one more piece of a file, of which so many bytes were read.
#[tactic(auto, using(crate::proofs::Scheduling::goes_on, crate::proofs::Scheduling::within, crate::proofs::Scheduling::stops, crate::proofs::Scheduling::ends, crate::proofs::Scheduling::ends_fine, crate::proofs::Scheduling::may_go_on))]
fn read_piece<S: Shelf>(
    shelf: &mut S,
    name: &str,
    at: u64,
    buffer: &mut [u8],
    reader: ScheduleReader,
) -> Result<SchedulePiece, FilesFault>
    requires allowed { AllowsSchedule (S.told shelf.old) (S.may_read shelf.old) name.now }
    requires room { length buffer.old ≡ piece_bytes }
    requires bounded { SchedulesAreBounded }
    requires lasting { BadLinesLast }
    requires read { HasFed (S.told shelf.old) name.now at reader }
    ensures goes { IfOk result (λ piece. LeadsOn piece (S.told shelf.old) name.now at) }
    ensures told { S.told shelf.new ≡ S.told shelf.old }
    ensures allowed { Keeps (S.may_read shelf.old) (S.may_read shelf.new) }
    ensures counted { Counted result (Rose (S.faults shelf.old name.now) (S.faults shelf.new name.now)) (S.faults shelf.old) (S.faults shelf.new) }
{
    let Ok(count) = shelf.read_at(name, at, buffer) else {
        return Err(FilesFault::Failed);
    };
    if count == 0 {
        return Ok(SchedulePiece::Whole(reader.end()));
    }
    match reader.feed(&buffer[..count]) {
        Ok(reader) => Ok(SchedulePiece::More(count, reader)),
        Err(ScheduleFault::BadLine { line }) => Ok(SchedulePiece::Whole(Err(line))),
        Err(ScheduleFault::NoMemory) => Err(FilesFault::NoMemory),
    }
}

// Reads a file from its start, by a buffer that has room.
fn read_through<S: Shelf>(
    alloc: Global,
    shelf: &mut S,
    name: &str,
    buffer: &mut [u8],
) -> Result<Result<Schedule, u64>, FilesFault>
    requires allowed { AllowsSchedule (S.told shelf.old) (S.may_read shelf.old) name.now }
    requires room { length buffer.old ≡ piece_bytes }
    ensures told { IfOk result (λ read. IfSome (S.told shelf.old) (λ files. GivesSteps read (schedule_of (files name.now)))) }
    ensures actors { IfOk result (λ read. IfOk read (λ schedule. AllByRecursion IsStep schedule.steps)) }
    ensures same { S.told shelf.new ≡ S.told shelf.old }
    ensures allowed { Keeps (S.may_read shelf.old) (S.may_read shelf.new) }
    ensures counted { Counted result (Rose (S.faults shelf.old name.now) (S.faults shelf.new name.now)) (S.faults shelf.old) (S.faults shelf.new) }
{
    schedules_are_bounded();
    bad_lines_last();
    let mut reader = ScheduleReader::new(alloc);
    let mut at: u64 = 0;
    loop {
        match read_piece(shelf, name, at, buffer, reader)? {
            SchedulePiece::More(count, fed) => {
                at += count as u64;
                reader = fed;
            }
            SchedulePiece::Whole(read) => return Ok(read),
        }
    }
}

// The schedule of a file, or its first bad line.
fn read_schedule<S: Shelf>(
    alloc: Global,
    shelf: &mut S,
    name: &str,
) -> Result<Result<Schedule, u64>, FilesFault>
    requires allowed { AllowsSchedule (S.told shelf.old) (S.may_read shelf.old) name.now }
    ensures told { IfOk result (λ read. IfSome (S.told shelf.old) (λ files. GivesSteps read (schedule_of (files name.now)))) }
    ensures actors { IfOk result (λ read. IfOk read (λ schedule. AllByRecursion IsStep schedule.steps)) }
    ensures same { S.told shelf.new ≡ S.told shelf.old }
    ensures allowed { Keeps (S.may_read shelf.old) (S.may_read shelf.new) }
    ensures counted { Counted result (Rose (S.faults shelf.old name.now) (S.faults shelf.new name.now)) (S.faults shelf.old) (S.faults shelf.new) }
{
    let mut buffer = make_buffer(alloc)?;
    read_through(alloc, shelf, name, &mut buffer)
}

/// The schedule of a file, if one is named, and else one without steps; or its first bad line.
///
/// Each call to the shelf asks for 65,536 bytes, and none is made once the bad line is met: a file is asked for no byte after
/// the piece that has it. A read that fails is not tried again.
#[tactic(auto, using(crate::proofs::Planning::counted_one))]
pub fn read_steps<S: Shelf>(
    alloc: Global,
    shelf: &mut S,
    name: &Option<Word>,
) -> Result<Result<Schedule, u64>, FilesFault>
    requires allowed { AllowsPlan (planned_if ScheduleFile name.now) (S.told shelf.old) (S.may_read shelf.old) }
    ensures told { IfOk result (λ read. IfSome (S.told shelf.old) (λ files. GivesSteps read (steps_in name.now files))) }
    ensures actors { IfOk result (λ read. IfOk read (λ schedule. AllByRecursion IsStep schedule.steps)) }
    ensures same { S.told shelf.new ≡ S.told shelf.old }
    ensures allowed { Keeps (S.may_read shelf.old) (S.may_read shelf.new) }
    ensures counted { Counted result (RoseAt (planned_if ScheduleFile name.now) (S.faults shelf.old) (S.faults shelf.new)) (S.faults shelf.old) (S.faults shelf.new) }
{
    match name {
        None => Ok(Ok(Schedule {
            steps: List::new(alloc),
        })),
        Some(name) => read_schedule(alloc, shelf, name.as_str()),
    }
}
