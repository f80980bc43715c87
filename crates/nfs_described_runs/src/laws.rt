//! Laws over the definitions alone.
ghost use Rattle.nfs_described_runs.specs.Described.{RunsStayDescribable, ServersLoadAgain, StepsStayDescribable};

/// An event that is judged by exports with which the tree is describable leaves it describable, with
/// them and with all others with which it was.
pub fn steps_stay_describable()
    ensures { StepsStayDescribable }
{}

/// After any list of events, each judged by exports with which the opening tree is describable, the tree
/// is describable with all exports with which that is.
pub fn runs_stay_describable()
    ensures { RunsStayDescribable }
{}

/// So is the tree of each server that opened with what a description says, after any such events, if
/// the exports in force were always those of a description with as many volumes.
/// Whatever is written of it, under whatever key, loads as that tree again.
pub fn servers_load_again()
    ensures { ServersLoadAgain }
{}
