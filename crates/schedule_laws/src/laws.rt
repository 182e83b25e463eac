//! Laws, each the contract of a function that does nothing.

ghost use Rattle.schedule_laws.specs.Laws.{
  CutReadsTell,
  DueIsFirst,
  FactsAlwaysHold,
  FoldOfOwn,
  HolderIsNamed,
  MayStays,
  OthersLeave,
  OwnDeliveries,
  RecordsDecide,
  SchedulesAgree,
  SchedulesFold,
  SchedulesSealTheSame,
  StepsAreAllowed,
  StepsKeepFacts,
  WaitingIsDue,
  WorldsHaveJournals,
};

/// The late read of reads that were cut short is the late read of the whole run.
pub fn cut_reads_tell()
    ensures { CutReadsTell }
{}

/// So what is decided by a record is what the whole run decides.
pub fn records_decide()
    ensures { RecordsDecide }
{}

/// What an entry of a legal journal means, by its kind.
pub fn steps_are_allowed()
    ensures { StepsAreAllowed }
{}

/// What holds between any two steps.
pub fn facts_hold()
    ensures kept { StepsKeepFacts }
    ensures always { FactsAlwaysHold }
{}

/// The job that is claimed as the due one.
pub fn due_is_first()
    ensures { DueIsFirst }
{}

/// What a commit that is not ready waits for: a job that can be claimed, or one that is held.
pub fn commits_wait()
    ensures waiting { WaitingIsDue }
    ensures held { HolderIsNamed }
{}

/// Whatever the schedule, what is sealed is the fold of what was delivered.
pub fn schedules_fold()
    ensures { SchedulesFold }
{}

/// So schedules that deliver the same blocks seal the same.
pub fn schedules_agree()
    ensures front { SchedulesAgree }
    ensures same { SchedulesSealTheSame }
{}

/// The state of a journal has that journal.
pub fn worlds_have_journals()
    ensures { WorldsHaveJournals }
{}

/// What others do leaves what an actor holds, and what it may ask.
pub fn others_leave()
    ensures held { OthersLeave }
    ensures may { MayStays }
{}

/// The entries of actor 0 tell the blocks, and what is sealed is their fold.
pub fn fold_of_own()
    ensures own { OwnDeliveries }
    ensures fold { FoldOfOwn }
{}
