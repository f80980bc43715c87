//! Laws over the definitions alone.
ghost use Rattle.nfs_restarts.specs.Lives.{DescribedHandlesStay, HandlesAcrossLives, HandlesOfOthersAreStale};

/// Of two lives with one list of paths and one server key, the later with numbers above all that
/// the earlier gave: each handle of the earlier reads in the later as the file of the same path, or
/// is stale (RFC 1813, section 2.6).
pub fn handles_live_on()
    ensures { HandlesAcrossLives }
{}

/// Of two such lives: a handle of a file of the description names, in the later too, the file of the same path
/// while that lives. So a client that holds one goes on.
pub fn described_handles_stay()
    ensures { DescribedHandlesStay }
{}

/// Of two lives whose handles have different keys, no handle of the one names a file in the other.
pub fn handles_of_others_are_stale()
    ensures { HandlesOfOthersAreStale }
{}
