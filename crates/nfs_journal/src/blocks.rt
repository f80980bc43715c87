//! The blocks in the file of a journal.
ghost use Rattle.nfs_journal.specs.Blocks.{BlocksAreRead, PartIsNoBlock, ReadBlocksAreThere};

/// Blocks that were written after a first record are read as they were written, whatever stands after them that is no block;
/// a first part of one more is none. What is read stands there.
pub fn blocks_are_read_once()
    ensures read { BlocksAreRead }
    ensures part { PartIsNoBlock }
    ensures there { ReadBlocksAreThere }
{}
