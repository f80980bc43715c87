//! What holds of every mount list.
ghost use Rattle.nfs_mount.specs.Laws.{KeepsVolumes, AreMounted};

/// Each pair is of a volume of the tree, whatever is asked for.
pub fn pairs_are_of_volumes()
    ensures { KeepsVolumes }
{}

/// A volume is mounted after MNT, which changes nothing the second time, and isn't after UMNT or
/// UMNTALL.
pub fn volumes_are_mounted()
    ensures { AreMounted }
{}
