//! The laws of digest files, of majorities and of the digests of folds: each the contract of a function that does nothing.

ghost use Rattle.checkpoint.specs.Laws.{FilesComeBack, FilesHaveOneText, FoldsAgree, MajoritiesAreOne};

/// A digest file that is read is the file of its digests, and digests are read back from it.
pub fn files_have_one_text()
    ensures one { FilesHaveOneText }
    ensures back { FilesComeBack }
{}

/// No two digests have a majority at one height.
pub fn majorities_are_one()
    ensures { MajoritiesAreOne }
{}

/// Nodes that fold the same blocks up to a height have the same digests up to it.
pub fn folds_agree()
    ensures { FoldsAgree }
{}
