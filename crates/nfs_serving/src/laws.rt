//! Laws over the definitions alone.
ghost use Rattle.nfs_serving.specs.Service.{FailedLogsStay, ServiceIsOneHistory};

use nfs_xdr::link::Link;

/// Whatever changes a service that begins with no client, by clients that join, have turns and leave, by
/// exports that are put in force and by notes that come to last: all its events are one history, in the
/// order of the turns, each from the address from which its client joined, at the moment of its turn, and
/// judged by the exports in force then. Each time notes have come to last, the whole journal of the
/// history lasts. The log has exactly the lines of these events, in their
/// order, cut only in the turn that a fault of its device ended. What was written for each client, also
/// for one that left, is a first part of the framed replies to the records of all that came from it, and
/// where no fault of its records has ended it, exactly these replies, as if no other were there.
pub fn service_is_one_history<L: Link>()
    ensures { ServiceIsOneHistory L.outgoing L.incoming }
{}

/// Whatever changes a service, once its log's device has failed, nothing more is written to it.
pub fn failed_logs_stay<L: Link>()
    ensures { FailedLogsStay L.outgoing L.incoming }
{}
