//! Files of blocks: drafts and chains, each in two versions, the second with times. `Reader` gives, over any pieces, the blocks up to the
//! first fault of a file, and that fault; `Sealer` the chain of these blocks in the version that was read, or the first fault. Blocks that
//! can stand in a file are read back from their text (`files_come_back`), a file without a fault is the text of its blocks
//! (`files_have_one_text`), and no more bytes change a fault (`faults_last`). The blocks before the first fault have the numbers from 1,
//! their times do not fall, and in version 1 each is 0 (`files_are_numbered`, `times_never_fall`, `version_one_has_no_times`).
#![tactic(auto)]

pub mod advance;
pub mod block;
pub mod finish;
pub mod form;
pub mod going;
pub mod hash;
pub mod laws;
pub mod reader;
pub mod resume;
pub mod sealer;
pub mod sealing;
pub mod section;
pub mod standing;
pub mod step;

pub use form::ChainVersion;
pub use reader::{Fed, Reader, read_pieces};
pub use sealer::Sealer;
pub use sealing::seal;
