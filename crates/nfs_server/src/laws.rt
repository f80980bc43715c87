//! Laws over the definitions alone.
ghost use Rattle.nfs_server.specs.Cases.{CallsCanBeRead, FoundHasHandle};
ghost use Rattle.nfs_server.specs.Forward.{RunsForward};
ghost use Rattle.nfs_server.specs.SurelyHeld.{NoneButTheFirst, SurelyHeld};
ghost use Rattle.nfs_server.specs.Together.{FeedsAreOneHistory};

/// A history has its newest event first. Read from its first event on, a run is one step after
/// another from the opening state, each after the events before it.
pub fn runs_go_forward()
    ensures { RunsForward }
{}

/// No call comes to those cases of the definitions that stand for nothing: a call that fails no
/// rule of RPC can be read, and what is found under a name has a handle.
pub fn no_case_is_left()
    ensures requests { CallsCanBeRead }
    ensures handles { FoundHasHandle }
{}

/// Feeds on any number of connections are one history, in the order in which records become whole:
/// the events of each feed come after those of the feeds before it, whichever connections these
/// were on. What is written to a connection on which no fault came is the framed replies to the
/// records of its own stream, in their order, as if no other were there.
pub fn feeds_are_one_history()
    ensures { FeedsAreOneHistory }
{}

/// A retransmission that is surely held in the reply cache gets its first reply: fewer events with changing
/// calls came after the latest call of its address and record than the cache has places. No retransmission
/// gets another reply of before.
pub fn held_retransmissions_get_their_first_reply()
    ensures surely { SurelyHeld }
    ensures first { NoneButTheFirst }
{}
