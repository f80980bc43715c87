//! Laws over the definitions alone.
ghost use Rattle.nfs_lives.specs.Tellings.{TextsReadBack, TextsReport};

/// The text of which the digest is taken determines the paths and the server's key: it is one for two
/// descriptions only where both are the same.
pub fn texts_report()
    ensures read_back { TextsReadBack }
    ensures report { TextsReport }
{}
