//! What holds of every lawful tree, of the operations as changes of it, and of its handles.
ghost use Rattle.nfs_inodes.specs.Laws.{RootsAreReached, ChangesKeepTheLaw, ChangesFollow};
ghost use Rattle.nfs_inodes.specs.Laws.{HandlesAreForGood, FoundLives};

/// From each directory, steps to the parent lead to the root of its volume, at most as many as
/// there are directories.
pub fn roots_are_reached_in_few_steps()
    ensures { RootsAreReached }
{}

/// Each operation, where it may be done, keeps the law.
pub fn changes_keep_the_law()
    ensures { ChangesKeepTheLaw }
{}

/// Each operation is changes of the numbered files, one after another, and so are operations one
/// after another.
pub fn changes_follow()
    ensures { ChangesFollow }
{}

/// A handle of a file that lives reads as this file alone; through all changes it reads as it while
/// it lives, and is stale ever after. No number is given twice, and the key stays.
pub fn handles_are_for_good()
    ensures { HandlesAreForGood }
{}

/// What is found under a name in a directory lives, in the directory's volume.
pub fn what_is_found_lives()
    ensures { FoundLives }
{}
