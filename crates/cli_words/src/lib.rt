//! The words of the command line, and the settings that they say. `read_words` gives the settings of the words, and `Usage` exactly outside
//! the language. A run that is read has 1 to 8 nodes and at most 16 executors (`within`). Words that are read are a command and its
//! options, each as often as the table of options says, and are read alike in any order (`only_lines`, `options_in_any_order`).
#![tactic(auto)]

pub mod command;
pub mod flags;
pub mod given;
pub mod laws;
pub mod options;
pub mod read;
pub mod settings;
pub mod value;
pub mod word;

pub use flags::Flags;
pub use read::read_words;
pub use settings::{Settings, WordsFault};
pub use word::Word;
