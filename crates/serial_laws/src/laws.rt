//! Laws, each the contract of a function that does nothing.

ghost use Rattle.serial_laws.specs.Laws.{
  CommittedAreAdmitted,
  CommittedAreRecorded,
  CommittedEndWell,
  EdgesHaveNoCycle,
  OrderByPosition,
  OrderIsSerial,
  PositionsAreListed,
  ResultsRun,
  RunsStay,
  SerialOrdersReplay,
  SetsHaveSources,
  TheOrderReplays,
  TheOrderRuns,
};

/// Where each transaction of a block met no danger among those that committed before it, every non-empty set of them has one
/// to which no edge comes from the set.
pub fn sets_have_sources()
    ensures { SetsHaveSources }
{}

/// So their edges have no cycle.
pub fn edges_have_no_cycle()
    ensures { EdgesHaveNoCycle }
{}

/// And the serial order has each of them once, with no edge from a later one to an earlier one.
pub fn order_is_serial()
    ensures { OrderIsSerial }
{}

/// The positions are listed once each.
pub fn positions_are_listed()
    ensures { PositionsAreListed }
{}

/// The order of the positions, with the edges by position, is the serial order of the transactions.
pub fn order_by_position()
    ensures { OrderByPosition }
{}

/// The transactions that commit in a block stand by position, and none of them met a danger among those before it.
pub fn committed_are_admitted()
    ensures { CommittedAreAdmitted }
{}

/// A transaction without a late read makes the same run on the tables before its block as on those of its height.
pub fn runs_stay()
    ensures { RunsStay }
{}

/// What is recorded of a committed transaction is what its run made on the tables of its height, without a fault.
pub fn committed_are_recorded()
    ensures { CommittedAreRecorded }
{}

/// In a checked application that run ended well.
pub fn committed_end_well()
    ensures { CommittedEndWell }
{}

/// The committed transactions of a block, run one after another along any serial order, make the runs with which they
/// committed, and end in the tables after the block.
pub fn serial_orders_replay()
    ensures { SerialOrdersReplay }
{}

/// So they do along the serial order that is defined.
pub fn the_order_replays()
    ensures { TheOrderReplays }
{}

/// Its positions are an order in which they run again: each stands there once, and what the runs are is what was recorded.
pub fn the_order_runs()
    ensures { TheOrderRuns }
{}

/// So of each block of a chain the results that are reported have an order in which its committed transactions run again.
pub fn results_run()
    ensures { ResultsRun }
{}
