//! Laws over the definitions alone.
ghost use Rattle.nfs_handles.specs.Runs.{CallsGo, FilesAre, HandlesNameOne, RunsKeep};
ghost use Rattle.nfs_handles.specs.Runs.{NumbersAreForGood};
ghost use Rattle.nfs_handles.specs.Tags.{OneIsNext};

/// Each call goes by one change, or by none: so calls, one after another, are a run.
pub fn calls_are_changes<T>()
    ensures { CallsGo T }
{}

/// Where each file is after a change: a new one is at the next number, a change or a removal
/// touches one number alone, and each file that lives is at a number that was given.
pub fn files_are_reported<T>()
    ensures { FilesAre T }
{}

/// The tag of the next new file follows from the files that live: there is exactly one.
pub fn tags_follow_from_files<T>()
    ensures { OneIsNext T }
{}

/// The handle of a file that lives reads as that file, so no two files that live have one handle.
pub fn handles_name_one_file<T>()
    ensures { HandlesNameOne T }
{}

/// What holds of numbered files holds after every run; the key stays, the next number never falls.
pub fn runs_keep<T>()
    ensures { RunsKeep T }
{}

/// A handle that read as a file reads as it while it lives, and is stale ever after; the number is
/// never given again.
pub fn numbers_are_for_good<T>()
    ensures { NumbersAreForGood T }
{}
