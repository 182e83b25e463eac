//! Laws of the definitions, with no code: why the committed transactions of a block may be run one after another, and why the causes that
//! are named of write conflicts and dangers are the least ones. The edges among these transactions have no cycle, so the serial order lists
//! each once (`edges_have_no_cycle`, `order_is_serial`). Run again along it, or along any other serial order, they make the same runs and
//! end in the tables after the block (`the_order_replays`, `serial_orders_replay`, `results_run`). A write conflict names the least
//! position, table and key, and a danger the least positions or the least of the shortest paths (`outcomes_name_the_least`).
#![tactic(auto)]

pub mod cause_laws;
pub mod laws;
