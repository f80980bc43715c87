//! What an auditor reads of a call that was denied.
ghost use Rattle.std.specs.Prelude.{◌≡◌, ◌+◌, ◌≤◌, ◌++◌, length};
ghost use Rattle.arrayvec.specs.ArrayVec.{array_vec_len};
ghost use Rattle.nfs_server.specs.AuditLines.{line_of, line_text, reason_text, rule_text, words_text};
ghost use Rattle.nfs_rpc.specs.Calls.{call_of};

use crate::rpc_rules::RpcRule;
use nfs_exports::addr::{Addr, put_addr};
use nfs_rpc::call::CallHead;
use nfs_rules::rule::Rule;
use nfs_text::line::{Line, put, put_number};

/// Why a call is denied.
#[derive(Clone, Copy, Debug, PartialEq, Eq)]
pub enum DenialReason {
    /// The first rule of RPC that fails.
    Rpc(RpcRule),
    /// The first rule of the procedure that fails, and the uid by which the caller is judged, where
    /// the rules of the call's handles are kept.
    Rule(Rule, Option<u32>),
    /// No rule fails, but there is no memory for the call.
    Memory,
}

/// A call that was denied: its numbers, and why.
#[derive(Clone, Copy, Debug, PartialEq, Eq)]
pub struct AuditLine {
    /// Who sent it.
    pub addr: Addr,
    /// The number that its client gave it.
    pub xid: u32,
    /// The program.
    pub program: u32,
    /// The program's procedure.
    pub procedure: u32,
    /// Why it was denied.
    pub reason: DenialReason,
}

impl AuditLine {
    /// The line of a call from this address.
    #[cold]
    pub(crate) fn of(addr: Addr, head: &CallHead<'_>, reason: DenialReason) -> AuditLine
        ensures { result ≡ line_of addr (call_of head.now) reason }
    {
        AuditLine {
            addr,
            xid: head.xid,
            program: head.prog,
            procedure: head.proc,
            reason,
        }
    }

    /// The line as text, with its end: `deny addr=A xid=X prog=P proc=R uid=U rule=N status=S`. All
    /// of it is numbers and fixed words. U is `-` where the uid isn't known.
    pub fn put(&self, line: &mut Line)
        ensures { line.new.items ≡ line_text self.now }
    {
        line.clear();
        put(line, b"deny addr=");
        put_addr(line, self.addr);
        put_number(line, b" xid=", u64::from(self.xid));
        put_number(line, b" prog=", u64::from(self.program));
        put_number(line, b" proc=", u64::from(self.procedure));
        put_reason(line, self.reason);
        put(line, b"\n");
    }
}

// Whose uid, which rule, and what the reply says.
fn put_reason(line: &mut Line, reason: DenialReason)
    requires { array_vec_len line.old + 100 ≤ 1024 }
    ensures items { line.new.items ≡ line.old.items ++ reason_text reason }
    ensures len { array_vec_len line.new ≤ array_vec_len line.old + 100 }
{
    match reason {
        DenialReason::Rpc(rule) => put_words(line, rule.name(), rule.status_name()),
        DenialReason::Rule(rule, Some(uid)) => {
            put_number(line, b" uid=", u64::from(uid));
            put_rule(line, rule);
        }
        DenialReason::Rule(rule, None) => {
            put(line, b" uid=-");
            put_rule(line, rule);
        }
        DenialReason::Memory => put_words(line, "memory", "system-err"),
    }
}

// A rule of a procedure, and its status.
fn put_rule(line: &mut Line, rule: Rule)
    requires { array_vec_len line.old + 50 ≤ 1024 }
    ensures items { line.new.items ≡ line.old.items ++ rule_text rule }
    ensures len { array_vec_len line.new ≤ array_vec_len line.old + 50 }
{
    put(line, b" rule=");
    put_text(line, rule.name());
    put_number(line, b" status=", u64::from(rule.status()));
}

// What has its status by name, and no uid.
fn put_words(line: &mut Line, rule: &str, status: &str)
    requires room { array_vec_len line.old + 60 ≤ 1024 }
    requires rule { length rule.now ≤ 16 }
    requires status { length status.now ≤ 16 }
    ensures items { line.new.items ≡ line.old.items ++ words_text rule.now status.now }
    ensures len { array_vec_len line.new ≤ array_vec_len line.old + 60 }
{
    put(line, b" uid=- rule=");
    put_text(line, rule);
    put(line, b" status=");
    put_text(line, status);
}

fn put_text(line: &mut Line, text: &str)
    requires { array_vec_len line.old + length text.now ≤ 1024 }
    ensures items { line.new.items ≡ line.old.items ++ text.now }
    ensures len { array_vec_len line.new ≡ array_vec_len line.old + length text.now }
{
    put(line, text.as_bytes());
}
