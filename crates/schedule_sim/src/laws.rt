//! What holds of every schedule: each the contract of a function that does nothing.

ghost use Rattle.schedule_sim.specs.Laws.{SchedulesAreLegal, SchedulesDeliver, SchedulesSealTheFold};
ghost use Rattle.schedule_sim.specs.Schedules.{BadLinesLast, SchedulesAreBounded, SchedulesComeBack, SchedulesHaveActors, SchedulesHaveOneText};

/// A text that is read is that of its steps, each byte of it.
pub fn schedules_have_one_text()
    ensures { SchedulesHaveOneText }
{}

/// Steps are read back from their text.
pub fn schedules_come_back()
    ensures { SchedulesComeBack }
{}

/// The actors of a schedule that is read are 1 to 16.
pub fn schedules_have_actors()
    ensures { SchedulesHaveActors }
{}

/// A text that is longer than the longest schedule has its bad line in the bytes that are too many, or before them.
pub fn schedules_are_bounded()
    ensures { SchedulesAreBounded }
{}

/// After a bad line, but that the bytes end too early, no more bytes change what a schedule gives.
pub fn bad_lines_last()
    ensures { BadLinesLast }
{}

/// The journal of a schedule is one that steps can make, and it delivers the blocks in their order.
pub fn schedules_are_legal()
    ensures legal { SchedulesAreLegal }
    ensures delivers { SchedulesDeliver }
{}

/// So a schedule that seals all blocks seals their fold.
pub fn schedules_seal_the_fold()
    ensures { SchedulesSealTheFold }
{}
