//! Where the lines of denied calls go.
ghost use Rattle.std.specs.Prelude.{◌≡◌, ◌⊎◌, ℕ, List, [], Option, Some, Bool, true, false, OnOk, OnErr};
ghost use Rattle.nfs_server.specs.AuditLines.{line_text};
ghost use Rattle.nfs_server.specs.Denying.{IsSpared};
ghost use Rattle.nfs_xdr.specs.Known.{Grows, GrowsByPart, StaysFailed};

use crate::audit_line::AuditLine;
use crate::event::Event;
use crate::server::Server;
use nfs_text::line::Line;
use nfs_xdr::device::{ByteOut, DeviceFault, write_all};

/// What takes the lines of denied calls: a device, or a log that may say more of each call.
pub trait AuditOut {
    /// The lines that were taken, where they are known.
    ghost contents: { Self → Option (List ℕ) };

    /// Whether the last call answered the fault.
    ghost failed: { Self → Bool };

    /// Whether its device has failed for good, and takes nothing more.
    ghost broken: { Self → Bool };

    /// Whether no line of a call that fails a rule is taken now.
    ghost full: { Self → Bool };

    /// Whether it is full.
    fn is_full(&self) -> bool
        ensures { result ≡ full self.now };

    /// Takes the line of a call that was denied, with the event that brought it and the server. At a
    /// fault some first bytes of it were taken, none unless the device failed in this call.
    fn take(
        &mut self,
        denied: &AuditLine,
        event: Event<'_>,
        server: &Server,
    ) -> Result<(), DeviceFault>
        requires { full self.old ≡ true → IsSpared (Some denied.now) }
        ensures ok { OnOk result (Grows (contents self.old) (line_text denied.now) (contents self.new)) }
        ensures part { OnErr result (GrowsByPart (contents self.old) (line_text denied.now) (contents self.new)) }
        ensures cut { OnErr result (Grows (contents self.old) [] (contents self.new) ⊎ (broken self.new ≡ true)) }
        ensures stays { StaysFailed (broken self.old) (contents self.old) (broken self.new) (contents self.new) }
        ensures fault { OnErr result (failed self.new ≡ true) };
}

impl<W: ByteOut> AuditOut for W {
    ghost contents = { λ w. W.contents w };

    ghost failed = { λ w. W.failed w };

    ghost broken = { λ w. W.failed w };

    ghost full = { λ _. false };

    fn is_full(&self) -> bool {
        false
    }

    fn take(
        &mut self,
        denied: &AuditLine,
        _event: Event<'_>,
        _server: &Server,
    ) -> Result<(), DeviceFault> {
        let mut line = Line::new();
        denied.put(&mut line);
        write_all(self, line.as_slice())
    }
}
