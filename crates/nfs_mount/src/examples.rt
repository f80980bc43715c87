//! Examples of the mount list.
ghost use Rattle.nfs_mount.specs.Example.{MountsOfE};

/// Of a small tree: which pairs the list has, which rule fails, and what is answered.
pub fn example_mounts()
    ensures { MountsOfE }
{}
