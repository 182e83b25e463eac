//! The laws of the tree and of its proofs, each the contract of a function that does nothing.

ghost use Rattle.merkle_proof.specs.Laws.{LeavesStand, MembersHaveProofs, OneIsLeaf, PathsAreShort, PathsLead, ProofsHaveMembers, ShapesCount, TreesSplit};
ghost use Rattle.merkle_proof.specs.FileLaws.{ProofsComeBack, ProofsHaveOneFile};
ghost use Rattle.sha2.specs.Sha256.{sha256};

/// The tree is the one that its equations say: of one leaf, and of more than one by halves.
pub fn trees_split()
    ensures one { OneIsLeaf sha256 }
    ensures split { TreesSplit sha256 }
{}

/// The leaves of a tree are as many as its codes, and stand in their order.
pub fn leaves_stand()
    ensures count { ShapesCount }
    ensures stand { LeavesStand }
{}

/// Each path computes the tree, so each member has a proof.
pub fn members_have_proofs()
    ensures lead { PathsLead sha256 }
    ensures short { PathsAreShort }
    ensures proofs { MembersHaveProofs sha256 }
{}

/// And a proof has a member, or two inputs have one hash.
pub fn proofs_have_members()
    ensures { ProofsHaveMembers sha256 }
{}

/// A proof file that is read is the file of its write and its proof, and these are read back from it.
pub fn proofs_have_one_file()
    ensures one { ProofsHaveOneFile }
    ensures back { ProofsComeBack }
{}
