//! Why files give no answer.

use rel_base::NoMemory;
use std::alloc::AllocError;

/// Why the files that the words name give no answer.
#[derive(Clone, Copy, PartialEq, Eq)]
pub enum FilesFault {
    /// Memory ran out.
    NoMemory,
    /// A read failed.
    Failed,
}

impl From<NoMemory> for FilesFault {
    ghost use Rattle.std.specs.Prelude.{◌≡◌};
    ghost use Rattle.bcdb.specs.declared.fault.FilesFault.TheVariants as fault;

    ghost from_gives = { λ _ e. e ≡ fault.NoMemory };

    fn from(_error: NoMemory) -> FilesFault {
        FilesFault::NoMemory
    }
}

impl From<AllocError> for FilesFault {
    ghost use Rattle.std.specs.Prelude.{◌≡◌};
    ghost use Rattle.bcdb.specs.declared.fault.FilesFault.TheVariants as fault;

    ghost from_gives = { λ _ e. e ≡ fault.NoMemory };

    fn from(_error: AllocError) -> FilesFault {
        FilesFault::NoMemory
    }
}
