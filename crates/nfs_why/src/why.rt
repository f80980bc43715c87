//! The answer to a question: rule by rule, and the verdict.
ghost use Rattle.std.specs.Prelude.{◌≡◌, is_none};
ghost use Rattle.nfs_ask.specs.declared.operation.Operation.TheVariants.{Mount};
ghost use Rattle.nfs_mount.specs.MountRules.{mount_verdict};

use crate::asked::Asked;
use crate::grant::put_grant;
use crate::judgement::{Judgement, exported_file, judge};
use crate::meaning::meaning;
use crate::operation::Shape;
use crate::place::{split_last, volume_holding};
use crate::question::Question;
use nfs_args::procedure::{MountProcedure, Procedure};
use nfs_ask::operation::Operation;
use nfs_attrs::fattr::Fattr;
use nfs_handles::number::Number;
use nfs_load::loaded::Loaded;
use nfs_mount::rules::mount_failure;
use nfs_rpc::auth_sys::Cred;
use nfs_rules::caller::Caller;
use nfs_rules::order::{MOUNT, rules_of_handle, rules_of_handles};
use nfs_rules::rule::Rule;
use nfs_text::chunks::Chunks;
use nfs_words::text::Text;

/// Puts the answer to a question over a description, which is the text of what was loaded: the grant that
/// the address has, by whose ids the caller is judged, each rule in its order, and the verdict. Answers whether the
/// call is granted.
pub fn put_answer(text: &[u8], loaded: &Loaded, question: &Question<'_>, out: &mut Text) -> bool
    ensures mount { question.now.operation ≡ Mount
        → (result ≡ is_none (mount_verdict loaded.now.tree loaded.now.table question.now.addr question.now.path.now)) }
{
    if question.operation == Operation::Mount {
        return put_mount(text, loaded, question, out);
    }
    let caller = Caller {
        addr: question.addr,
        cred: &question.cred,
    };
    let inquiry = Inquiry {
        text,
        loaded,
        caller,
    };
    inquiry.put(question, out)
}

// The answer of MNT.
fn put_mount(text: &[u8], loaded: &Loaded, question: &Question<'_>, out: &mut Text) -> bool
    ensures { result ≡ is_none (mount_verdict loaded.now.tree loaded.now.table question.now.addr question.now.path.now) }
{
    let failure = mount_failure(&loaded.tree, &loaded.table, question.addr, question.path);
    if let Some(volume) = loaded.tree.volume_named(question.path) {
        put_grant(out, text, loaded, volume, question.addr);
    }
    out.put(MountProcedure::Mount.name());
    out.put(b" of ");
    out.put(question.path);
    out.put(b"\n");
    put_rules(out, &MOUNT, failure);
    put_verdict(out, failure);
    failure.is_none()
}

// A description, and who asks.
#[derive(Clone, Copy)]
struct Inquiry<'a> {
    text: &'a [u8],
    loaded: &'a Loaded,
    caller: Caller<'a>,
}

// The file that a handle is taken of, and a name in it.
#[derive(Clone, Copy)]
struct Target<'a> {
    file: Number,
    name: &'a [u8],
}

impl<'a> Inquiry<'a> {
    // The answer of a call of NFS.
    fn put(&self, question: &Question<'_>, out: &mut Text) -> bool {
        let second = question.second.unwrap_or(&[]);
        let (is_name, has_second) = match Shape::of(question.operation) {
            Shape::Name => (true, false),
            Shape::TwoNames => (true, true),
            Shape::FileAndName => (false, true),
            Shape::File | Shape::Volume => (false, false),
        };
        let Some(one) = self.target(question.path, is_name, out) else {
            return false;
        };
        let two = if has_second {
            let Some(two) = self.target(second, true, out) else {
                return false;
            };
            two
        } else {
            one
        };
        self.put_caller(one.file, out);
        self.put_call(question, one, two, second, out)
    }

    // Where a path leads. `None` where it leads nowhere, which is the verdict then.
    fn target<'b>(&self, path: &'b [u8], is_name: bool, out: &mut Text) -> Option<Target<'b>> {
        let Some(place) = volume_holding(&self.loaded.tree, path) else {
            out.put(b"this path is inside no exported volume\n");
            put_verdict(out, Some(Rule::MountPath));
            return None;
        };
        put_grant(out, self.text, self.loaded, place.volume, self.caller.addr);
        if !is_name {
            let file = self.walk(place.root, place.rest, out)?;
            return Some(Target { file, name: &[] });
        }
        let (way, name) = split_last(place.rest).unwrap_or((&[], b"."));
        let file = self.walk(place.root, way, out)?;
        Some(Target { file, name })
    }

    // The file to which names lead. Each LOOKUP on the way that is denied is reported; `None` where a name is
    // not there, which is reported as the verdict then.
    fn walk(&self, root: Number, way: &[u8], out: &mut Text) -> Option<Number> {
        let mut dir = root;
        for name in Chunks::new(way, b'/') {
            if !name.is_empty() {
                dir = self.step(dir, name, out)?;
            }
        }
        Some(dir)
    }

    // One name further.
    fn step(&self, dir: Number, name: &[u8], out: &mut Text) -> Option<Number> {
        let failure = self.lookup_failure(dir, name);
        if let Some(rule) = failure {
            out.put(b"on the way: LOOKUP of ");
            out.put(name);
            out.put(b" is denied by ");
            out.put(rule.name().as_bytes());
            out.put(b"\n");
        }
        let found = self.loaded.tree.lookup(dir, name);
        if found.is_none() {
            put_verdict(out, failure);
        }
        found
    }

    // The first rule that a LOOKUP fails.
    fn lookup_failure(&self, dir: Number, name: &[u8]) -> Option<Rule> {
        let handle = self.loaded.tree.handle_of(dir.0)?;
        let asked = Asked {
            one: &handle,
            two: &handle,
            name,
            new_name: &[],
            second: &[],
        };
        let args = asked.args(Operation::Lookup);
        let tree = &self.loaded.tree;
        let handles = (handle.as_slice(), handle.as_slice());
        judge(tree, &self.loaded.table, self.caller, handles, &args)?.failure()
    }

    // By whose ids the caller is judged.
    fn put_caller(&self, file: Number, out: &mut Text) {
        out.put(b"caller: ");
        put_claim(out, self.caller.cred);
        let (tree, table) = (&self.loaded.tree, &self.loaded.table);
        if let Ok(file) = exported_file(tree, table, self.caller, file) {
            let subject = file.subject();
            out.put(b", judged as uid ");
            out.put_number(u64::from(subject.uid()));
            out.put(b", gid ");
            out.put_number(u64::from(subject.gid()));
            for gid in &self.caller.cred.gids {
                if subject.is_in_group(*gid) {
                    out.put(b",");
                    out.put_number(u64::from(*gid));
                }
            }
        }
        out.put(b"\n");
    }

    // The call, its rules, and the verdict.
    fn put_call(
        &self,
        question: &Question<'_>,
        one: Target<'_>,
        two: Target<'_>,
        second: &[u8],
        out: &mut Text,
    ) -> bool {
        let tree = &self.loaded.tree;
        let (Some(first), Some(other)) = (tree.handle_of(one.file.0), tree.handle_of(two.file.0))
        else {
            return false;
        };
        let asked = Asked {
            one: &first,
            two: &other,
            name: one.name,
            new_name: two.name,
            second,
        };
        let args = asked.args(question.operation);
        let handles = (first.as_slice(), other.as_slice());
        let Some(judgement) = judge(tree, &self.loaded.table, self.caller, handles, &args) else {
            return false;
        };
        let procedure = args.procedure();
        out.put(procedure.name());
        self.put_target(b" of ", one, out);
        if one.file.0 != two.file.0 || one.name != two.name {
            self.put_target(b", ", two, out);
        }
        out.put(b"\n");
        put_judgement(out, procedure, judgement);
        judgement.failure().is_none()
    }

    // The file of a handle, and the name in it.
    fn put_target(&self, before: &[u8], target: Target<'_>, out: &mut Text) {
        out.put(before);
        if !target.name.is_empty() {
            out.put(target.name);
            out.put(b" in ");
        }
        out.put(b"file ");
        out.put_number(target.file.0);
        if let Some(attributes) = self.loaded.tree.attributes(target.file) {
            put_attributes(out, &attributes);
        }
    }
}

fn put_attributes(out: &mut Text, attributes: &Fattr) {
    out.put(b" (mode ");
    out.put_mode(attributes.mode);
    out.put(b", uid ");
    out.put_number(u64::from(attributes.uid));
    out.put(b", gid ");
    out.put_number(u64::from(attributes.gid));
    out.put(b")");
}

// Who the client says that it is.
fn put_claim(out: &mut Text, cred: &Cred) {
    out.put(b"uid ");
    out.put_number(u64::from(cred.uid));
    out.put(b", gid ");
    out.put_number(u64::from(cred.gid));
    for gid in &cred.gids {
        out.put(b",");
        out.put_number(u64::from(*gid));
    }
}

fn put_judgement(out: &mut Text, procedure: Procedure, judgement: Judgement) {
    let handles = if procedure.row().handles == 2 {
        rules_of_handles()
    } else {
        rules_of_handle()
    };
    match judgement {
        Judgement::Unreached(rule) => {
            put_rules(out, handles, Some(rule));
            out.put(b"  not looked at  the rules of ");
            out.put(procedure.name());
            out.put(b"\n");
        }
        Judgement::Judged(rules, failure) => {
            put_rules(out, handles, None);
            put_rules(out, rules, failure);
        }
    }
    put_verdict(out, judgement.failure());
}

// A line for each rule, in their order: those before the first that fails are passed, and those after it
// are not looked at. A rule that is looked at twice in a row has one line.
fn put_rules(out: &mut Text, rules: &[Rule], failure: Option<Rule>) {
    let mut is_decided = false;
    for place in 0..rules.len() {
        let rule = rules[place];
        if place > 0 && rules[place - 1] == rule {
            continue;
        }
        if is_decided {
            put_rule(out, b"  not looked at  ", rule);
        } else if failure == Some(rule) {
            put_rule(out, b"  failed         ", rule);
            is_decided = true;
        } else {
            put_rule(out, b"  passed         ", rule);
        }
    }
}

fn put_rule(out: &mut Text, mark: &[u8], rule: Rule) {
    out.put(mark);
    out.put(rule.name().as_bytes());
    out.put(b"\n");
}

// The verdict.
fn put_verdict(out: &mut Text, failure: Option<Rule>) {
    match failure {
        None => out.put(b"granted\n"),
        Some(rule) => {
            out.put(b"denied: ");
            out.put(rule.name().as_bytes());
            out.put(b", status ");
            out.put_number(u64::from(rule.status()));
            out.put(b": ");
            out.put(meaning(rule).as_bytes());
            out.put(b"\n");
        }
    }
}
