//! The words that the program is started with.

ghost use Rattle.std.specs.Prelude.{◌≡◌};
ghost use Rattle.std.specs.IoError.{error_kind};
ghost use Rattle.bcdb.specs.Collecting.{words_fault};

use cli_words::WordsFault;
use std::io::ErrorKind;
use std::{env, io};

// Why the words can not be had: memory ran out, or else they are no texts, and so in no language.
fn words_fault(error: &io::Error) -> WordsFault
    ensures { result ≡ words_fault (error_kind error.now) }
{
    match error.kind() {
        ErrorKind::OutOfMemory => WordsFault::NoMemory,
        _ => WordsFault::Usage,
    }
}

// The words after the program's name.
fn collect(rt: &HostRuntime) -> io::Result<Vec<String>> {
    let words = env::args(rt)?.skip(1).collect(rt.alloc())?;
    Ok(words)
}

/// The words after the program's name, or why they can not be had.
pub fn collect_words(rt: &HostRuntime) -> Result<Vec<String>, WordsFault> {
    match collect(rt) {
        Ok(words) => Ok(words),
        Err(error) => Err(words_fault(&error)),
    }
}
