//! Examples of what is read of a tree.
ghost use Rattle.nfs_inodes.specs.Example.{ReadsOfE};

/// Of the example tree: its totals, and the attributes, entries and bytes of its files.
pub fn example_is_read()
    ensures { ReadsOfE }
{}
