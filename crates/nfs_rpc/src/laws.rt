//! Laws over the definitions alone.
ghost use Rattle.nfs_xdr.specs.Encoding.{EncodesOnce};
ghost use Rattle.nfs_xdr.specs.Reading.{Finds};
ghost use Rattle.nfs_rpc.specs.Records.{IsRecord, StreamsAreReadOnce, RecordsGrow, RecordsClose};
ghost use Rattle.nfs_rpc.specs.Progress.{UnfinishedReports, ReadersKeep};
ghost use Rattle.nfs_rpc.specs.Calls.{IsCallHead, head_at};
ghost use Rattle.nfs_rpc.specs.AuthSys.{IsAuthSys, cred_at};
ghost use Rattle.nfs_rpc.specs.Replies.{IsReply};

/// A stream is read as records in one way: no record begins another, and where its bytes are
/// records and a rest that holds no whole record, there is no other such reading.
pub fn streams_are_read_once()
    ensures records { EncodesOnce IsRecord }
    ensures streams { StreamsAreReadOnce }
{}

/// What a framer keeps says what the bytes since the last whole record are: while no record is
/// whole, they hold none and no header too long was reached; while one is whole, they are that
/// record, within the limit.
pub fn unfinished_bytes_are_reported()
    ensures { UnfinishedReports }
{}

/// It makes no difference how a stream is cut into chunks: more bytes leave the records that
/// were read, and a record that is whole is the next.
pub fn chunks_make_no_difference()
    ensures grow { RecordsGrow }
    ensures close { RecordsClose }
    ensures readers { ReadersKeep }
{}

/// A call's head is found where it is encoded, all of it and nothing else; so no head begins
/// another.
pub fn heads_are_found()
    ensures found { Finds IsCallHead head_at }
    ensures once { EncodesOnce IsCallHead }
{}

/// A credential of AUTH_SYS is found where it is encoded, all of it and nothing else; so none begins
/// another.
pub fn credentials_are_found()
    ensures found { Finds IsAuthSys cred_at }
    ensures once { EncodesOnce IsAuthSys }
{}

/// No head of a reply begins another.
pub fn replies_are_encoded_once()
    ensures { EncodesOnce IsReply }
{}
