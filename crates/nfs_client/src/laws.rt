//! Laws over the definitions alone.
ghost use Rattle.nfs_client.specs.ReadBack.{FilesAreReadBack, NamesAreReadBack, HeadsAreReadBack, CredentialsAreReadBack};

/// What is written for a request is read back as its arguments, whatever follows.
pub fn requests_are_read_back()
    ensures files { FilesAreReadBack }
    ensures names { NamesAreReadBack }
{}

/// The head of a call is read back, and who calls.
pub fn heads_are_read_back()
    ensures heads { HeadsAreReadBack }
    ensures credentials { CredentialsAreReadBack }
{}
