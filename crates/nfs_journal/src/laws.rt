//! Laws over the definitions alone.
ghost use Rattle.nfs_journal.specs.Alike.{AlikeHoldTheSame};
ghost use Rattle.nfs_journal.specs.Entries.{EntriesAreReadOnce, JournalIsOfNoted};
ghost use Rattle.nfs_journal.specs.Heads.{HeadsAreReadOnce};
ghost use Rattle.nfs_journal.specs.Lives.{LivesAreOneHistory, NextHoldsEarlier, NextHoldsTheSame};
ghost use Rattle.nfs_journal.specs.Noted.{NotedAreAnswered, NotedAreServed, NotedIsHistory};
ghost use Rattle.nfs_journal.specs.Recovered.{FrontIsEarlier, RecoveryIsExact};
ghost use Rattle.nfs_journal.specs.Recovering.{AllAreCounted, ChunksAreOne, SegmentsBegin, SegmentsGoOn};

/// The noted events are a history of their own, after which the server holds the same: setup, tree,
/// mount list, reply cache and notes. None of them was refused for want of memory, and each has a reply.
/// The journal has their entries, and no other.
pub fn noted_events_are_a_history()
    ensures history { NotedIsHistory }
    ensures served { NotedAreServed }
    ensures answered { NotedAreAnswered }
    ensures journal { JournalIsOfNoted }
{}

/// Two servers that began alike, and were asked and answered the same without want of memory, hold
/// the same.
pub fn alike_servers_hold_the_same()
    ensures { AlikeHoldTheSame }
{}

/// An entry is that of one event and one reply.
pub fn entries_are_read_once()
    ensures { EntriesAreReadOnce }
{}

/// A record is that of one head.
pub fn heads_are_read_once()
    ensures { HeadsAreReadOnce }
{}

/// A server that begins with the tree that another began with, and runs that one's journal again, each entry
/// under the exports that were in force when it was answered, comes to hold the same: setup, tree, mount list
/// and reply cache. Where the end of the journal is lost, wherever it was cut, it comes to hold what the other
/// held after the first of the noted events, with the exports that what is left puts in force last.
pub fn recovery_is_exact()
    ensures whole { RecoveryIsExact }
    ensures front { FrontIsEarlier }
{}

/// Chunks of a journal are run again as one, and what is counted from the beginning on are the entries of
/// all the bytes, and what is unfinished after them. Its segments are run again one after another, once
/// the exports of each are in force.
pub fn chunks_are_counted()
    ensures one { ChunksAreOne }
    ensures all { AllAreCounted }
    ensures begin { SegmentsBegin }
    ensures segments { SegmentsGoOn }
{}

/// Over any number of lives, each with exports of its own, from each to the next by its journal, of which the
/// end may be lost, the noted events in the order of their entries are one history from the opening that the
/// description gives, each judged by the exports of its life. A server that runs the journal again that the last
/// life left, whatever exports it has itself, holds the same as the server of that life: setup, tree, mount list
/// and reply cache; where the end is lost, what the history leads to after the first of its events.
pub fn lives_are_one_history()
    ensures history { LivesAreOneHistory }
    ensures next { NextHoldsTheSame }
    ensures earlier { NextHoldsEarlier }
{}
