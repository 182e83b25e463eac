//! Reports: what the nodes committed and what their tables hold, as lines of text or as JSON. `report` gives the bytes of a report, which
//! names where the block file stopped, and of the journals after it. The JSON is the compact text of the value `report_json`, in the words
//! of `serde_json`. `versions` gives the lines of versions, `answers` those of rows, and `summary` how many outcomes are of each kind.
//!
//! Only tested: journals, versions and reports, also as JSON, in print: the cases of `tests/`.
#![tactic(auto)]

mod answer;
mod block;
mod counts;
mod ending;
mod journal_lines;
mod json_block;
mod json_node;
mod json_table;
mod json_text;
mod look;
mod node;
mod outcome;
mod table;
mod text;
mod value;
mod version;

pub use answer::answers;
pub use counts::summary;
pub use ending::stopped_line;
pub use look::Look;
pub use node::report;
pub use version::versions;
