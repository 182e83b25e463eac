//! The files that a command names.

ghost use Rattle.std.specs.Prelude.{◌≡◌};
ghost use Rattle.bcdb.specs.Sources.{query_sources, run_sources, simulation_sources};

use cli_words::Word;

/// The files that the words of a command name, where it runs blocks on an application.
#[derive(Drop)]
pub struct Sources {
    /// The application.
    pub app: Word,
    /// What arrives at the nodes, if anything does: the prefix of the names of the files, after which the number of a node stands.
    pub arrivals: Option<Word>,
    /// At how many nodes it may arrive, at most 8.
    pub nodes: u32,
    /// The schedule, if there is one.
    pub schedule: Option<Word>,
    /// The blocks.
    pub blocks: Word,
}

impl Sources {
    /// The files of a run of so many nodes.
    pub fn of_run(app: Word, blocks: Word, arrivals: Option<Word>, nodes: u32) -> Sources
        ensures { result ≡ run_sources app blocks arrivals nodes }
    {
        Sources {
            app,
            arrivals,
            nodes,
            schedule: None,
            blocks,
        }
    }

    /// The files of a simulation. What arrives at its node is that of the first node of a run.
    pub fn of_simulation(app: Word, blocks: Word, schedule: Word, arrivals: Option<Word>) -> Sources
        ensures { result ≡ simulation_sources app blocks schedule arrivals }
    {
        Sources {
            app,
            arrivals,
            nodes: 1,
            schedule: Some(schedule),
            blocks,
        }
    }

    /// The files of a query.
    pub fn of_query(app: Word, blocks: Word) -> Sources
        ensures { result ≡ query_sources app blocks }
    {
        Sources {
            app,
            arrivals: None,
            nodes: 0,
            schedule: None,
            blocks,
        }
    }
}
