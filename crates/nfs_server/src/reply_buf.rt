//! The room in which replies are written.
ghost use Rattle.std.specs.Prelude.{◌≡◌, ◌+◌, ◌≤◌, ◌⊎◌, ◌↔◌, [], ◌++◌, true, false, length, take, drop, IfOk, IsTrue};
ghost use Rattle.nfs_rpc.specs.Records.{fragment, header};
ghost use Rattle.nfs_server.specs.ReplyRoom.{HasReplyRoom, IsReply, is_full, reply_at};

use nfs_rpc::record::{HEADER_BYTES, frame_record};
use nfs_xdr::output::Output;
use std::alloc::{AllocError, Global};
use std::marker::Model;

/// Room for one reply and the record mark in front of it, made once, so that no reply takes
/// memory and a framed reply goes out by one write. Framed replies may gather in front of it, where
/// there is room for them, so that they go out by one write together and none is copied.
#[derive(Drop)]
pub struct ReplyBuf {
    // While a reply is written, its mark is not yet that of the reply.
    pub(crate) out: Output,
    // Where the mark of the reply stands, after the replies that have gathered.
    pub(crate) start: usize,
}

/// How many bytes of room there are, for the mark and the reply.
pub const ROOM: usize = 294_912;

/// The most bytes of replies that gather: as many as one may have room for, and one reply more.
pub const MOST_GATHERED: usize = 2 * ROOM;

impl Model for ReplyBuf {
    ghost use Rattle.std.specs.Prelude.{◌+◌, ◌-◌, length, take};
    ghost use Rattle.nfs_server.specs.ReplyRoom.{Buffered, IsFramed, reply_at, room_bytes};

    ghost Value = { Buffered };

    ghost view = { λ a. record {
      earlier = take a.start a.out.bytes;
      reply = reply_at a.start a.out;
      most = length a.out.bytes + a.out.room - room_bytes;
    } };

    ghost invariant = { IsFramed };
}

impl ReplyBuf {
    /// Room, with no reply in it. Refused where there is no memory.
    pub fn new(alloc: Global) -> Result<ReplyBuf, AllocError>
        ensures earlier { IfOk result (λ reply. reply.earlier ≡ []) }
        ensures reply { IfOk result (λ reply. reply.reply ≡ []) }
        ensures most { IfOk result (λ reply. reply.most ≡ 0) }
    {
        with_room(alloc, ROOM)
    }

    /// The same, where replies may gather in front of it. Refused where there is no memory.
    pub fn gathering(alloc: Global) -> Result<ReplyBuf, AllocError>
        ensures earlier { IfOk result (λ reply. reply.earlier ≡ []) }
        ensures reply { IfOk result (λ reply. reply.reply ≡ []) }
        ensures most { IfOk result (λ reply. reply.most ≡ MOST_GATHERED) }
    {
        with_room(alloc, MOST_GATHERED + ROOM)
    }

    /// The framed replies that have gathered, one after another.
    pub fn gathered(&self) -> &[u8]
        ensures all { result.now ≡ self.now.earlier }
        ensures bound { length result.now ≤ MOST_GATHERED }
    {
        &self.out.bytes()[..self.start]
    }

    /// The reply, empty where there is none.
    pub fn bytes(&self) -> &[u8]
        ensures { result.now ≡ self.now.reply }
    {
        &self.out.bytes()[self.start + HEADER_BYTES..]
    }

    /// The reply as one record, with its mark in front.
    pub fn framed(&self) -> &[u8]
        ensures { result.now ≡ fragment true self.now.reply }
    {
        &self.out.bytes()[self.start..]
    }

    /// No reply; those that have gathered stay.
    pub fn clear(&mut self)
        ensures earlier { self.new.earlier ≡ self.old.earlier }
        ensures reply { self.new.reply ≡ [] }
        ensures most { self.new.most ≡ self.old.most }
    {
        begin(&mut self.out, self.start);
        frame(&mut self.out, self.start);
    }

    /// No reply, and none that has gathered.
    pub fn clear_all(&mut self)
        ensures earlier { self.new.earlier ≡ [] }
        ensures reply { self.new.reply ≡ [] }
        ensures most { self.new.most ≡ self.old.most }
    {
        self.start = 0;
        begin(&mut self.out, 0);
        frame(&mut self.out, 0);
    }

    /// The reply gathers after the earlier ones, and there is none then. `false` exactly where they
    /// would be more than may gather: nothing changes.
    pub fn gather(&mut self) -> bool
        ensures done { IsTrue result → self.new.earlier ≡ self.old.earlier ++ fragment true self.old.reply }
        ensures reply { IsTrue result → self.new.reply ≡ [] }
        ensures full { IsTrue result ⊎ (self.new ≡ self.old) }
        ensures refuses { (result ≡ false) ↔ (is_full self.old ≡ true) }
        ensures most { self.new.most ≡ self.old.most }
    {
        if self.out.room() < ROOM {
            return false;
        }
        self.start = self.out.bytes().len();
        self.out.part(&frame_record(0));
        true
    }
}

// A buffer with so many bytes of room, and no reply in it.
fn with_room(alloc: Global, room: usize) -> Result<ReplyBuf, AllocError>
    requires least { ROOM ≤ room }
    requires most { room ≤ MOST_GATHERED + ROOM }
    ensures earlier { IfOk result (λ reply. reply.earlier ≡ []) }
    ensures reply { IfOk result (λ reply. reply.reply ≡ []) }
    ensures most { IfOk result (λ reply. reply.most + ROOM ≡ room) }
{
    let mut out = Output::new(alloc, room)?;
    out.part(&frame_record(0));
    Ok(ReplyBuf { out, start: 0 })
}

/// What was written from a place on.
#[inline(always)]
pub(crate) fn written(out: &Output, start: usize) -> &[u8]
    requires { start ≤ length out.now.bytes }
    ensures { result.now ≡ drop start out.now.bytes }
{
    &out.bytes()[start..]
}

/// Leaves nothing of the reply at a place but its mark.
#[inline(always)]
pub(crate) fn begin(out: &mut Output, start: usize)
    requires { IsReply start out.old }
    ensures room { HasReplyRoom out.new }
    ensures reply { IsReply start out.new }
    ensures mark { length out.new.bytes ≡ start + 4 }
    ensures bytes { out.new.bytes ≡ take (start + 4) out.old.bytes }
    ensures all { length out.new.bytes + out.new.room ≡ length out.old.bytes + out.old.room }
{
    out.cut(start + HEADER_BYTES);
}

/// Makes the mark at a place that of the reply.
#[inline(always)]
pub(crate) fn frame(out: &mut Output, start: usize)
    requires { IsReply start out.old }
    ensures reply { IsReply start out.new }
    ensures front { take start out.new.bytes ≡ take start out.old.bytes }
    ensures framed { drop start out.new.bytes ≡ header true (length (reply_at start out.old)) ++ reply_at start out.old }
    ensures same { reply_at start out.new ≡ reply_at start out.old }
    ensures all { length out.new.bytes + out.new.room ≡ length out.old.bytes + out.old.room }
{
    let len = out.bytes().len() - start - HEADER_BYTES;
    out.overwrite(start, &frame_record(len as u32));
}
