//! Laws over the definitions alone.
ghost use Rattle.nfs_round_trip.specs.Changes.{ChangesStayDescribable};
ghost use Rattle.nfs_round_trip.specs.RoundTrip.{DescriptionsAreKept, DescriptionsAreOne, DescriptionsLoadAgain};
ghost use Rattle.nfs_round_trip.specs.RoundTrip.{KeysStayDescribable, LoadedAreDescribable, WalksAreOne};

/// The description that is written of a tree with its exports loads, and is that tree again, with
/// those exports: for each tree that can be described.
pub fn descriptions_load_again()
    ensures { DescriptionsLoadAgain }
{}

/// A tree has one description, and what is loaded from it has the same.
pub fn descriptions_are_kept()
    ensures one { DescriptionsAreOne }
    ensures kept { DescriptionsAreKept }
{}

/// The trees that can be described are those that descriptions load.
pub fn loaded_are_describable()
    ensures { LoadedAreDescribable }
{}

/// Each change of a tree keeps it such a tree.
pub fn changes_stay_describable()
    ensures { ChangesStayDescribable }
{}

/// They stay such trees under another key, so that what is saved under a new one loads again.
pub fn keys_stay_describable()
    ensures { KeysStayDescribable }
{}

/// The order in which the files of a volume are written is the only one.
pub fn walks_are_one()
    ensures { WalksAreOne }
{}
