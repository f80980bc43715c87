//! Laws over the definitions alone.
ghost use Rattle.nfs_checksum.specs.Checksums.{KnowsExamples};

/// The checksums of RFC 3720's examples are those that it gives.
pub fn known_checksums()
    ensures { KnowsExamples }
{}
