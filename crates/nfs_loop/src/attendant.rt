//! What attends a service between two rounds.
ghost use Rattle.std.specs.Prelude.{◌≡◌, Bool};
ghost use Rattle.nfs_loop.specs.Attending.{MayReload};

use crate::view::ServiceView;
use nfs_server::server::Server;
use nfs_xdr::link::Link;

/// What attends a service between two rounds. What goes wrong there ends no service.
pub trait Attendant {
    /// Whether the service may end: its tree is saved for that, where it is to be.
    ghost may_end: { Self → Bool };

    /// Makes a copy of the tree of a server.
    fn save(&mut self, server: &Server);

    /// Saves the tree of a server that is about to end as it was told to. Whether it may end; where the tree can't be
    /// saved, it goes on.
    fn finish(&mut self, server: &Server) -> bool
        ensures { may_end self.new ≡ result };

    /// Answers who controls the service, in a round in which something was reported that is no client's, and once a
    /// second where the limits of the service say so. Whether the service is to end. It may put other exports in
    /// force, and changes nothing else of the server.
    fn attend<L: Link + Drop>(&mut self, server: &mut Server, view: &ServiceView<'_, L>) -> bool
        ensures { MayReload server.old server.new };
}

/// How a service stands.
#[derive(Clone, Copy, Debug, PartialEq, Eq)]
pub struct Standing {
    /// How many clients it has.
    pub clients: usize,
    /// How many of them have something on its way, or were heard of in this second or the one before; all of them, as
    /// long as the service is not told to end.
    pub busy: usize,
    /// How many connections there were so far.
    pub joined: u64,
    /// For how many seconds it has run.
    pub seconds: u64,
}
