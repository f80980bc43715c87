//! What holds of the pages of a lawful tree.
ghost use Rattle.nfs_dirs.specs.Laws.{PagesJoin, AllAreLeft, EndsAreReported};

/// Pages taken one after another over an unchanged directory, each from the cookie of the last entry
/// before it, join to all that it lists, without gap or double.
pub fn pages_join()
    ensures join { PagesJoin }
    ensures all { AllAreLeft }
    ensures end { EndsAreReported }
{}
