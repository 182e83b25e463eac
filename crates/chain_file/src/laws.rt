//! What holds of each file of blocks, as the contract of a function that does nothing.

ghost use Rattle.chain_file.specs.Files.{FaultsLast, FilesAreBounded, FilesAreNumbered, TimesNeverFall, VersionOneHasNoTimes, WholeFilesHaveVersions};
ghost use Rattle.chain_file.specs.Text.{FilesComeBack, FilesHaveOneText};

/// Blocks that can stand in a file are read back from their text in each form, with no fault.
pub fn files_come_back()
    ensures { FilesComeBack }
{}

/// A file without a fault that begins with a header is the text of its blocks in that form, each byte of it.
pub fn files_have_one_text()
    ensures { FilesHaveOneText }
{}

/// A file of blocks that is longer than the longest one has a fault in the bytes that are too many, or before them.
pub fn files_are_bounded()
    ensures { FilesAreBounded }
{}

/// The blocks before the first fault of a file have the numbers from 1 on.
pub fn files_are_numbered()
    ensures { FilesAreNumbered }
{}

/// Their times never fall.
pub fn times_never_fall()
    ensures { TimesNeverFall }
{}

/// In version 1 each time is 0.
pub fn version_one_has_no_times()
    ensures { VersionOneHasNoTimes }
{}

/// A file without a fault has a version.
pub fn whole_files_have_versions()
    ensures { WholeFilesHaveVersions }
{}

/// After a fault, but that the bytes end too early, no more bytes change what a file gives.
pub fn faults_last()
    ensures { FaultsLast }
{}
