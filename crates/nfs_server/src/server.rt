//! A server, which takes one whole record at a time.
ghost use Rattle.std.specs.Prelude.{◌≡◌, ℕ, ◌≤◌, ◌↔◌, List, [], ◌∷◌, ◌++◌, ◌&&◌, true, false, not, length, Option, IfOk, IsErrOf, OnErr, OnOk, None, Some, is_err, option_map, if◌then◌else◌};
ghost use Rattle.std.specs.List.{find};
ghost use Rattle.nfs_args.specs.Encoding.{HasCountedBytes};
ghost use Rattle.nfs_args.specs.Procedures.{mount_number, mount_procedures, procedure_number, procedures};
ghost use Rattle.nfs_rpc.specs.AuthSys.{caller, credential_of};
ghost use Rattle.nfs_rpc.specs.Calls.{call_of, head_at};
ghost use Rattle.nfs_server.specs.Denying.{IsSpared, fails_by, fails_rule};
ghost use Rattle.nfs_server.specs.Events.{Choice};
ghost use Rattle.nfs_server.specs.declared.rpc_rules.RpcRule.TheVariants.{Arguments};
ghost use Rattle.nfs_server.specs.Requests.{is_nfs, is_null};
ghost use Rattle.nfs_server.specs.AuditLines.{line_of};
ghost use Rattle.nfs_server.specs.declared.audit_line.DenialReason.TheVariants.{Rpc};
ghost use Rattle.nfs_server.specs.RpcRules.{fails_rpc, caller_rules, rpc_reply, rpc_rules};
ghost use Rattle.nfs_server.specs.InMemory.{event_of, answer_of, answered, is_silent, reported};
ghost use Rattle.nfs_server.specs.Entries.{entry_text, journal_text};
ghost use Rattle.nfs_server.specs.Fits.{Held, History, Fits, GoesOn, opening_with, reloaded, settled, with_exports};
ghost use Rattle.nfs_server.specs.Noted as noted;
ghost use Rattle.nfs_server.specs.Notes.{notes_after, to_note, with_entry};
ghost use Rattle.nfs_server.specs.OneEvent.{AnswersRecord, AnswersBy, AnswersChange, PerformsAnew, scene_for};
ghost use Rattle.nfs_server.specs.Retransmissions as retransmissions;
ghost use Rattle.nfs_server.specs.ReplyRoom.{Adds, HasReplyRoom, after};
ghost use Rattle.nfs_reply_cache.specs.Places.{Key, Place, place_for};
ghost use Rattle.nfs_rpc.specs.Records.{fragment};
ghost use Rattle.nfs_xdr.specs.Known.{Grows, GrowsByPart, StaysFailed};
ghost use Rattle.nfs_xdr.specs.Reading.{numbered};
ghost use Rattle.nfs_server.specs.Runs.{events_of, RunsThrough};

use crate::arguments::read_args;
use crate::audit_line::{AuditLine, DenialReason};
use crate::call_counts::CallCounts;
use crate::event::{Event, Handled, Outcome, Sink};
use crate::journal_out::JournalOut;
use crate::mount::{answer_mount, may_change_mounts, read_mount_args};
use crate::nfs_call::{answer_call, may_change};
use crate::notes::Notes;
use crate::reply::{give_up, refuse, retransmission, succeed};
use crate::reply_buf::{ReplyBuf, begin, frame, written};
use crate::rpc_rules::{Admitted, RpcRule, admit, caller_failure, identify};
use crate::settle_fault::SettleFault;
use nfs_args::args::NfsArgs;
use nfs_args::mount_args::MountArgs;
use nfs_args::procedure::{MountProcedure, Procedure};
use nfs_exports::export_table::ExportTable;
use nfs_inodes::tree::Tree;
use nfs_load::loaded::Loaded;
use nfs_mount::mount::Mount;
use nfs_mount::mount_list::MountList;
use nfs_mount::rules::mount_failure;
use nfs_procs::call_context::CallContext;
use nfs_reply_cache::reply_cache::ReplyCache;
use nfs_rpc::auth_sys::Cred;
use nfs_rpc::call::{CallHead, read_call};
use nfs_rules::caller::Caller;
use nfs_rules::verdict::verdict;
use nfs_xdr::input::Input;
use nfs_xdr::output::Output;
use std::alloc::{AllocError, Global};
use std::marker::Model;

/// An NFS version 3 server with its MOUNT service.
#[derive(Drop)]
pub struct Server {
    tree: Tree,
    table: ExportTable,
    mounts: MountList,
    kept: ReplyCache,
    line: Option<AuditLine>,
    counts: CallCounts,
    notes: Notes,
}

impl Model for Server {
    ghost use Rattle.nfs_server.specs.Fits.{Held};

    ghost Value = { Held };

    ghost use Rattle.nfs_server.specs.InMemory.{held};

    ghost view = { λ s. held s.kept s.table s.tree s.mounts s.line s.notes };
}

impl Server {
    /// A server that has seen no event, whose volumes no client mounts, with so many places for
    /// replies to retransmissions. Refused where there is no memory; the description is then dropped.
    pub fn new(alloc: Global, loaded: Loaded, cache: usize) -> Result<Server, AllocError>
        requires some { 1 ≤ cache }
        requires few { cache ≤ 1024 }
        ensures setup { IfOk result (λ server. server.setup ≡ record { places = cache; exports = loaded.table }) }
        ensures tree { IfOk result (λ server. server.state.tree ≡ loaded.tree) }
        ensures mounts { IfOk result (λ server. server.state.mounts ≡ []) }
        ensures kept { IfOk result (λ server. server.kept ≡ []) }
        ensures fits { IfOk result (λ server. Fits (opening_with server.setup server.state) server) }
        ensures line { IfOk result (λ server. server.line ≡ None) }
        ensures notes { IfOk result (λ server. server.notes ≡ None) }
    {
        loaded.tree.law();
        Ok(Server {
            tree: loaded.tree,
            table: loaded.table,
            mounts: MountList::new(alloc),
            kept: ReplyCache::new(alloc, cache)?,
            line: None,
            counts: CallCounts::new(),
            notes: Notes::none(),
        })
    }

    /// The tree that is served.
    pub fn tree(&self) -> &Tree
        ensures { result.now ≡ self.now.state.tree }
    {
        &self.tree
    }

    /// To whom its volumes are exported.
    pub fn exports(&self) -> &ExportTable
        ensures { result.now ≡ self.now.setup.exports }
    {
        &self.table
    }

    /// Puts these exports in force: each event from now on is judged by them, as by those of a server
    /// that began with them. The tree, the mounts and the cached replies stay. The table should have a
    /// list for each volume, in the order of the tree's; a volume without one is exported to nobody.
    pub fn set_exports(&mut self, table: ExportTable)
        ensures exports { self.new ≡ with_exports table self.old }
        ensures fits { (history : History) → Fits history self.old → Fits (reloaded history table) self.new }
    {
        self.table = table;
    }

    /// Keeps notes from now on: the entries of what is answered, until they last in a journal. Whatever
    /// history fits, its whole journal is taken to last already. Refused where there is no memory: nothing
    /// changes.
    pub fn keep_notes(&mut self, alloc: Global) -> Result<(), AllocError>
        ensures ok { OnOk result (self.new ≡ record self.old { notes = Some [] }) }
        ensures err { OnErr result (self.new ≡ self.old) }
        ensures fits { OnOk result ((history : History) → Fits history self.old → Fits (settled history) self.new) }
    {
        self.notes.keep(alloc)
    }

    /// The notes, where some are kept and none were lost for want of room.
    pub fn notes(&self) -> Option<&[u8]>
        ensures { option_map (λ bytes. bytes.now) result ≡ self.now.notes }
    {
        self.notes.bytes()
    }

    /// Makes the notes last in a journal; then there are none. Whatever history fits, its whole journal
    /// lasts then: where what lasted of it before was there, all of it is. Where there are no notes, the
    /// journal isn't touched. At a fault the server stays as it is. Where notes were lost, they can't come
    /// to last any more, and what was answered since should not go out.
    pub fn settle<J: JournalOut>(&mut self, journal: &mut J) -> Result<(), SettleFault>
        ensures ok { OnOk result (self.new ≡ record self.old { notes = Some [] }) }
        ensures grows { OnOk result (Grows (J.lasting journal.old) (to_note self.old.notes) (J.lasting journal.new)) }
        ensures fits { OnOk result ((history : History) → Fits history self.old → Fits (settled history) self.new) }
        ensures lasts { OnOk result ((history : History) → Fits history self.old → J.lasting journal.old ≡ Some history.lasting
            → J.lasting journal.new ≡ Some (journal_text history.done)) }
        ensures lost { IsErrOf result SettleFault.Lost ↔ (self.old.notes ≡ None) }
        ensures part { OnErr result (GrowsByPart (J.lasting journal.old) (to_note self.old.notes) (J.lasting journal.new)) }
        ensures failed { IsErrOf result SettleFault.JournalFault → J.failed journal.new ≡ true }
        ensures stays { StaysFailed (J.failed journal.old) (J.lasting journal.old) (J.failed journal.new) (J.lasting journal.new) }
        ensures idle { to_note self.old.notes ≡ [] → journal.new ≡ journal.old }
        ensures err { OnErr result (self.new ≡ self.old) }
    {
        self.notes.settle(journal)
    }

    /// How many calls came of each procedure.
    pub fn counts(&self) -> &CallCounts {
        &self.counts
    }

    /// Which clients mount which volumes, in the order in which they asked for them.
    pub fn mounts(&self) -> &[Mount]
        ensures { result.now ≡ self.now.state.mounts }
    {
        self.mounts.as_slice()
    }

    /// How many replies are cached for retransmissions.
    pub fn cached(&self) -> usize
        ensures { result ≡ length self.now.kept }
    {
        self.kept.len()
    }

    /// How many replies may be cached for retransmissions.
    pub fn places(&self) -> usize
        ensures { result ≡ self.now.setup.places }
    {
        self.kept.most()
    }

    /// The line of the last call, where it was denied. Case by case, so that nothing is copied where
    /// there is none.
    #[inline(always)]
    pub fn last_audit(&self) -> Option<AuditLine>
        ensures { result ≡ self.now.line }
    {
        match &self.line {
            Some(line) => Some(*line),
            None => None,
        }
    }

    /// Whether a record is a call that fails a rule, as the server stands: one of RPC, or of its
    /// procedure. A retransmission whose reply is cached fails none. Nothing changes.
    pub fn would_deny(&self, event: Event<'_>) -> bool
        ensures { result ≡ fails_rule self.now (event_of event.entry) }
    {
        let Ok(head) = read_call(event.bytes) else {
            return false;
        };
        match admit(&head) {
            Err(_) => true,
            Ok(Admitted::Null) => false,
            Ok(Admitted::Nfs(procedure)) => self.would_deny_nfs(procedure, &head, event),
            Ok(Admitted::Mount(procedure)) => self.would_deny_mount(procedure, &head, event),
        }
    }

    // The same of a call of NFS other than NULL, by the rules of who calls and those after them.
    fn would_deny_nfs(&self, procedure: Procedure, head: &CallHead<'_>, event: Event<'_>) -> bool
        requires nfs { is_nfs (call_of head.now) ≡ true }
        requires null { is_null (call_of head.now) ≡ false }
        requires procedure { numbered procedure_number procedures head.now.proc ≡ Some procedure }
        ensures { result ≡ fails_by (caller_rules ++ Arguments ∷ []) self.now (event_of event.entry) (call_of head.now) head.now.args }
    {
        let mut cred = Cred::nobody();
        if identify(head, &mut cred).is_err() {
            return true;
        }
        let mut args = NfsArgs::Null;
        if read_args(procedure, Input::new(head.args.rest()), &mut args).is_err() {
            return true;
        }
        if may_change(&args) && self.kept.holds(event.addr, event.bytes) {
            return false;
        }
        let caller = Caller {
            addr: event.addr,
            cred: &cred,
        };
        verdict(&self.tree, &self.table, caller, &args).is_some()
    }

    // The same of a call of MOUNT other than NULL.
    fn would_deny_mount(
        &self,
        procedure: MountProcedure,
        head: &CallHead<'_>,
        event: Event<'_>,
    ) -> bool
        requires mount { is_nfs (call_of head.now) ≡ false }
        requires null { is_null (call_of head.now) ≡ false }
        requires procedure { numbered mount_number mount_procedures head.now.proc ≡ Some procedure }
        ensures { result ≡ fails_by (caller_rules ++ Arguments ∷ []) self.now (event_of event.entry) (call_of head.now) head.now.args }
    {
        if caller_failure(head).is_some() {
            return true;
        }
        let Ok(args) = read_mount_args(procedure, Input::new(head.args.rest())) else {
            return true;
        };
        match args {
            MountArgs::Mount(path) => {
                mount_failure(&self.tree, &self.table, event.addr, path.bytes()).is_some()
            }
            _ => false,
        }
    }

    /// Takes one whole record. For every history that fits before, the answer is a step after it,
    /// and the history with this event fits after. There is no reply exactly where no head of a call can be
    /// read. Where notes are kept, an event that a journal has is noted with its reply.
    pub fn handle(&mut self, event: Event<'_>, reply: &mut ReplyBuf) -> Handled
        ensures setup { self.new.setup ≡ self.old.setup }
        ensures step { (history : History) → Fits history self.old → (choice : Choice)
            × GoesOn history self.old (event_of event.entry) choice (answered result reply.new.reply self.new.line) self.new }
        ensures silent { result ≡ Handled.NoReply → (reply.new.reply ≡ []) × (self.new.line ≡ None) }
        ensures unreadable { is_silent result ≡ is_err (head_at event.entry.bytes.now) }
        ensures spared { fails_rule self.old (event_of event.entry) ≡ false → IsSpared (answered result reply.new.reply self.new.line).line }
        ensures notes { self.new.notes ≡ notes_after (event_of event.entry) (answered result reply.new.reply self.new.line) self.old.notes }
        ensures earlier { reply.new.earlier ≡ reply.old.earlier }
        ensures most { reply.new.most ≡ reply.old.most }
    {
        let (handled, is_noted) = self.answer(event, reply);
        self.note(is_noted, event, reply);
        handled
    }

    // Notes an event with its reply where it is one that is noted, unless it was refused for want of
    // memory.
    #[inline(always)]
    fn note(&mut self, is_noted: bool, event: Event<'_>, reply: &ReplyBuf)
        ensures { self.new ≡ record self.old {
          notes = (if is_noted && not (retransmissions.is_refused self.old.line)
              then with_entry (fragment true (entry_text (event_of event.entry) reply.now.reply)) self.old.notes else self.old.notes);
        } }
    {
        if is_noted && !wants_memory(&self.line) {
            self.notes.add(event, reply.bytes());
        }
    }

    // Takes one whole record, said without a history, and notes nothing: whether there is a reply, and
    // whether it is a call that is noted.
    #[inline(always)]
    fn answer(&mut self, event: Event<'_>, reply: &mut ReplyBuf) -> (Handled, bool)
        ensures answers { AnswersRecord self.old (event_of event.entry) (answered result.0 reply.new.reply self.new.line) self.new }
        ensures noted { result.1 ≡ noted.is_noted (event_of event.entry) }
        ensures notes { self.new.notes ≡ self.old.notes }
        ensures silent { result.0 ≡ Handled.NoReply → (reply.new.reply ≡ []) × (self.new.line ≡ None) }
        ensures unreadable { is_silent result.0 ≡ is_err (head_at event.entry.bytes.now) }
        ensures earlier { reply.new.earlier ≡ reply.old.earlier }
        ensures most { reply.new.most ≡ reply.old.most }
    {
        let Ok(head) = read_call(event.bytes) else {
            reply.clear();
            self.line = None;
            return (Handled::NoReply, false);
        };
        begin(&mut reply.out, reply.start);
        forget(&mut self.line);
        let is_noted = self.respond(&head, event, &mut reply.out);
        frame(&mut reply.out, reply.start);
        (Handled::Answered, is_noted)
    }

    // The reply to a call, and its line where it is denied; and whether the call is noted. The line is left
    // where it is kept, so that nothing is moved for a call that has none. What stands out of line takes a
    // copy of the head, so that a call of NULL lays none down.
    #[inline(always)]
    fn respond(&mut self, head: &CallHead<'_>, event: Event<'_>, out: &mut Output) -> bool
        requires room { HasReplyRoom out.old }
        requires line { self.old.line ≡ None }
        ensures adds { Adds out.old out.new }
        ensures setup { self.new.setup ≡ self.old.setup }
        ensures notes { self.new.notes ≡ self.old.notes }
        ensures noted { result ≡ noted.is_noted_by rpc_rules (event_of event.entry) (call_of head.now) head.now.args }
        ensures judged { AnswersBy rpc_rules self.old (event_of event.entry) (call_of head.now) head.now.args
            (reported (after out.old out.new) self.new.line) self.new }
    {
        match admit(head) {
            Err(rule) => {
                self.deny(&head.copied(), event, rule, out);
                false
            }
            Ok(Admitted::Null) => {
                self.count(Admitted::Null);
                succeed(out, head.xid);
                false
            }
            Ok(Admitted::Nfs(procedure)) => {
                self.count(Admitted::Nfs(procedure));
                self.answer_nfs(procedure, &head.copied(), event, out)
            }
            Ok(Admitted::Mount(procedure)) => {
                self.count(Admitted::Mount(procedure));
                self.answer_mount(procedure, &head.copied(), event, out)
            }
        }
    }

    // Counts a call, on which nothing else depends.
    #[inline(always)]
    fn count(&mut self, admitted: Admitted)
        ensures { self.new ≡ self.old }
    {
        match admitted {
            Admitted::Null => self.counts.count_null(),
            Admitted::Nfs(procedure) => self.counts.count_nfs(procedure),
            Admitted::Mount(procedure) => self.counts.count_mount(procedure),
        }
    }

    // The reply to a call of NFS other than NULL, and its line where it is denied; and whether the call is
    // noted.
    #[inline(always)]
    fn answer_nfs(
        &mut self,
        procedure: Procedure,
        head: &CallHead<'_>,
        event: Event<'_>,
        out: &mut Output,
    ) -> bool
        requires room { HasReplyRoom out.old }
        requires line { self.old.line ≡ None }
        requires nfs { is_nfs (call_of head.now) ≡ true }
        requires null { is_null (call_of head.now) ≡ false }
        requires procedure { numbered procedure_number procedures head.now.proc ≡ Some procedure }
        ensures adds { Adds out.old out.new }
        ensures setup { self.new.setup ≡ self.old.setup }
        ensures notes { self.new.notes ≡ self.old.notes }
        ensures noted { result ≡ noted.is_noted_by (caller_rules ++ Arguments ∷ []) (event_of event.entry) (call_of head.now) head.now.args }
        ensures judged { AnswersBy (caller_rules ++ Arguments ∷ []) self.old (event_of event.entry) (call_of head.now) head.now.args
            (reported (after out.old out.new) self.new.line) self.new }
    {
        let mut cred = Cred::nobody();
        match identify(head, &mut cred) {
            Err(rule) => {
                self.deny(head, event, rule, out);
                false
            }
            Ok(()) => self.answer_caller(procedure, head, event, &cred, out),
        }
    }

    // The same, where it is known who calls.
    #[inline(always)]
    fn answer_caller(
        &mut self,
        procedure: Procedure,
        head: &CallHead<'_>,
        event: Event<'_>,
        cred: &Cred,
        out: &mut Output,
    ) -> bool
        requires room { HasReplyRoom out.old }
        requires line { self.old.line ≡ None }
        requires nfs { is_nfs (call_of head.now) ≡ true }
        requires null { is_null (call_of head.now) ≡ false }
        requires procedure { numbered procedure_number procedures head.now.proc ≡ Some procedure }
        requires known { find (fails_rpc (call_of head.now) head.now.args) caller_rules ≡ None }
        requires cred { caller (call_of head.now).cred.body ≡ Some (credential_of cred.now) }
        ensures adds { Adds out.old out.new }
        ensures setup { self.new.setup ≡ self.old.setup }
        ensures notes { self.new.notes ≡ self.old.notes }
        ensures noted { result ≡ noted.is_noted_by (caller_rules ++ Arguments ∷ []) (event_of event.entry) (call_of head.now) head.now.args }
        ensures judged { AnswersBy (caller_rules ++ Arguments ∷ []) self.old (event_of event.entry) (call_of head.now) head.now.args
            (reported (after out.old out.new) self.new.line) self.new }
    {
        let mut args = NfsArgs::Null;
        match read_args(procedure, Input::new(head.args.rest()), &mut args) {
            Err(_) => {
                self.deny(head, event, RpcRule::Arguments, out);
                false
            }
            Ok(()) if may_change(&args) => {
                self.answer_change(head, event, cred, &args, out);
                true
            }
            Ok(()) => {
                self.answer_anew(head, event, cred, &args, out);
                false
            }
        }
    }

    // The reply to a call that may change the tree: that of the call that it retransmits, if its reply is
    // kept. Out of line, so that other calls pay nothing for it.
    #[inline(never)]
    fn answer_change(
        &mut self,
        head: &CallHead<'_>,
        event: Event<'_>,
        cred: &Cred,
        args: &NfsArgs<'_>,
        out: &mut Output,
    )
        requires room { HasReplyRoom out.old }
        requires line { self.old.line ≡ None }
        requires counted { HasCountedBytes args.now }
        requires change { retransmissions.may_change args.now ≡ true }
        ensures adds { Adds out.old out.new }
        ensures setup { self.new.setup ≡ self.old.setup }
        ensures notes { self.new.notes ≡ self.old.notes }
        ensures answers { AnswersChange (scene_for self.old (event_of event.entry) cred.now args.now) (call_of head.now) self.old
            (event_of event.entry) (reported (after out.old out.new) self.new.line) self.new }
    {
        let start = out.bytes().len();
        if self.kept.find(event.addr, event.bytes) {
            give_again(&self.kept, out);
            return;
        }
        let place = match self.kept.prepare(event.addr, event.bytes) {
            Ok(place) => place,
            Err(refused) => {
                give_up(out, start, head.xid, refused);
                self.line = Some(AuditLine::of(event.addr, head, DenialReason::Memory));
                return;
            }
        };
        let call = CallContext {
            table: &self.table,
            caller: Caller {
                addr: event.addr,
                cred,
            },
            moment: event.moment,
        };
        answer_call(out, head, &mut self.tree, &call, args, &mut self.line);
        if wants_memory(&self.line) {
            self.kept.release(place);
        } else {
            self.kept.keep(place, written(out, start));
        }
    }

    // The reply to a call that is answered anew.
    #[inline(always)]
    fn answer_anew(
        &mut self,
        head: &CallHead<'_>,
        event: Event<'_>,
        cred: &Cred,
        args: &NfsArgs<'_>,
        out: &mut Output,
    )
        requires room { HasReplyRoom out.old }
        requires counted { HasCountedBytes args.now }
        requires line { self.old.line ≡ None }
        ensures adds { Adds out.old out.new }
        ensures setup { self.new.setup ≡ self.old.setup }
        ensures notes { self.new.notes ≡ self.old.notes }
        ensures kept { self.new.kept ≡ self.old.kept }
        ensures answers { PerformsAnew (scene_for self.old (event_of event.entry) cred.now args.now) (call_of head.now)
            (reported (after out.old out.new) self.new.line) self.old self.new }
    {
        let call = CallContext {
            table: &self.table,
            caller: Caller {
                addr: event.addr,
                cred,
            },
            moment: event.moment,
        };
        answer_call(out, head, &mut self.tree, &call, args, &mut self.line);
    }

    // The reply to a call of MOUNT other than NULL, and its line where it is denied; and whether the call
    // is noted. Out of line, so that calls of NFS pay nothing for it.
    #[inline(never)]
    #[cold]
    fn answer_mount(
        &mut self,
        procedure: MountProcedure,
        head: &CallHead<'_>,
        event: Event<'_>,
        out: &mut Output,
    ) -> bool
        requires room { HasReplyRoom out.old }
        requires line { self.old.line ≡ None }
        requires mount { is_nfs (call_of head.now) ≡ false }
        requires null { is_null (call_of head.now) ≡ false }
        requires procedure { numbered mount_number mount_procedures head.now.proc ≡ Some procedure }
        ensures adds { Adds out.old out.new }
        ensures setup { self.new.setup ≡ self.old.setup }
        ensures notes { self.new.notes ≡ self.old.notes }
        ensures noted { result ≡ noted.is_noted_by (caller_rules ++ Arguments ∷ []) (event_of event.entry) (call_of head.now) head.now.args }
        ensures judged { AnswersBy (caller_rules ++ Arguments ∷ []) self.old (event_of event.entry) (call_of head.now) head.now.args
            (reported (after out.old out.new) self.new.line) self.new }
    {
        if let Some(rule) = caller_failure(head) {
            self.deny(head, event, rule, out);
            return false;
        }
        let Ok(args) = read_mount_args(procedure, Input::new(head.args.rest())) else {
            self.deny(head, event, RpcRule::Arguments, out);
            return false;
        };
        let (tree, table, mounts) = (&self.tree, &self.table, &mut self.mounts);
        let line = &mut self.line;
        answer_mount(out, head, tree, table, mounts, event.addr, &args, line);
        may_change_mounts(&args)
    }

    // The reply to a call that fails a rule of RPC, and its line. Out of line, so that other calls pay
    // nothing for it.
    #[inline(never)]
    #[cold]
    fn deny(&mut self, head: &CallHead<'_>, event: Event<'_>, rule: RpcRule, out: &mut Output)
        requires { HasReplyRoom out.old }
        ensures adds { Adds out.old out.new }
        ensures reply { after out.old out.new ≡ rpc_reply rule head.now.xid }
        ensures line { self.new ≡ record self.old { line = Some (line_of event.entry.addr (call_of head.now) (Rpc rule)) } }
    {
        refuse(out, rule, head.xid);
        self.line = Some(AuditLine::of(event.addr, head, DenialReason::Rpc(rule)));
    }

    /// Takes events one after another, and hands each outcome to the sink, until a take answers
    /// `false`. Answers how many events were done.
    pub fn run<S: Sink>(
        &mut self,
        events: &[Event<'_>],
        reply: &mut ReplyBuf,
        sink: &mut S,
    ) -> usize
        ensures bound { result ≤ length events.now }
        ensures run { (history : History) → Fits history self.old
            → RunsThrough S.takes history (events_of events.now) result sink.old sink.new self.new }
        ensures setup { self.new.setup ≡ self.old.setup }
    {
        let mut done = 0;
        for event in events {
            let handled = self.handle(*event, reply);
            done += 1;
            if !sink.take(outcome_of(handled, reply, self.last_audit())) {
                break;
            }
        }
        done
    }
}

// Forgets the line of the call before, which mostly has none: then nothing is written.
#[inline(always)]
fn forget(line: &mut Option<AuditLine>)
    ensures { line.new ≡ None }
{
    if line.is_some() {
        *line = None;
    }
}

// The cached reply at the front once more.
#[cold]
fn give_again(kept: &ReplyCache, out: &mut Output)
    requires { HasReplyRoom out.old }
    ensures adds { Adds out.old out.new }
    ensures reply { (key : Key) (reply : List ℕ) (rest : List Place) → kept.now.places ≡ place_for key reply ∷ rest
        → after out.old out.new ≡ reply }
{
    if let Some(reply) = kept.first() {
        retransmission(out, reply);
    }
}

// Whether a call was answered that there is no memory for it.
fn wants_memory(line: &Option<AuditLine>) -> bool
    ensures { result ≡ retransmissions.is_refused line.now }
{
    match line {
        Some(line) => line.reason == DenialReason::Memory,
        None => false,
    }
}

// What is handed to a sink.
fn outcome_of(handled: Handled, reply: &ReplyBuf, line: Option<AuditLine>) -> Outcome<'_>
    ensures { answer_of result ≡ answered handled reply.now.reply line }
{
    match handled {
        Handled::Answered => Outcome {
            reply: Some(reply.bytes()),
            line,
        },
        Handled::NoReply => Outcome {
            reply: None,
            line: None,
        },
    }
}
