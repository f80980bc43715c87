//! The line of an export.
ghost use Rattle.std.specs.Prelude.{◌≡◌, ◌+◌, ◌≤◌, [], ◌++◌, OnOk, length};
ghost use Rattle.arrayvec.specs.ArrayVec.{array_vec_len};
ghost use Rattle.nfs_describe.specs.Lines.{anonymous_text, export_line, options_text, pattern_text};
ghost use Rattle.nfs_describe.specs.Lines as spec;
ghost use Rattle.nfs_describe.specs.Outputs.{Takes};

use crate::fault::DescribeFault;
use crate::output::Output;
use nfs_exports::addr::put_addr;
use nfs_exports::export_table::Export;
use nfs_exports::options::{NOBODY, Options, Squash};
use nfs_exports::pattern::Pattern;
use nfs_text::line::{Line, put, put_number};

/// The line of an export.
pub(crate) fn put_export<O: Output>(out: &mut O, export: &Export) -> Result<(), DescribeFault>
    ensures { OnOk result (Takes O.has out.old (export_line export.now) out.new) }
{
    let mut line = Line::new();
    fill(&mut line, export);
    out.put(line.as_slice())
}

// The same in an empty line.
fn fill(line: &mut Line, export: &Export)
    requires { line.old.items ≡ [] }
    ensures { line.new.items ≡ export_line export.now }
{
    put(line, b"export ");
    put_pattern(line, export.pattern);
    put(line, b" ");
    put_options(line, export.options);
    put(line, b"\n");
}

// A pattern as it is kept, also where bits of its address don't decide.
fn put_pattern(line: &mut Line, pattern: Pattern)
    requires { array_vec_len line.old + 120 ≤ 1024 }
    ensures items { line.new.items ≡ line.old.items ++ pattern_text pattern }
    ensures len { array_vec_len line.new ≤ array_vec_len line.old + 36 }
{
    if pattern.bits == 0 && pattern.address.0 == 0 {
        put(line, b"*");
        return;
    }
    put_addr(line, pattern.address);
    if pattern.bits != 32 {
        put_number(line, b"/", u64::from(pattern.bits));
    }
}

fn put_options(line: &mut Line, options: Options)
    requires { array_vec_len line.old + 120 ≤ 1024 }
    ensures items { line.new.items ≡ line.old.items ++ options_text options }
    ensures len { array_vec_len line.new ≤ array_vec_len line.old + 80 }
{
    put(line, if options.read_only { b"ro" } else { b"rw" });
    put(line, squash_text(options.squash));
    put_anonymous(line, b",anonuid=", options.anonuid);
    put_anonymous(line, b",anongid=", options.anongid);
}

fn squash_text(squash: Squash) -> &'static [u8]
    ensures length { length result.now ≤ 15 }
    ensures text { result.now ≡ spec.squash_text squash }
{
    match squash {
        Squash::No => b",no_root_squash",
        Squash::Root => b"",
        Squash::All => b",all_squash",
    }
}

fn put_anonymous(line: &mut Line, name: &[u8], id: u32)
    requires { array_vec_len line.old + length name.now + 20 ≤ 1024 }
    ensures items { line.new.items ≡ line.old.items ++ anonymous_text name.now id }
    ensures len { array_vec_len line.new ≤ array_vec_len line.old + length name.now + 20 }
{
    if id != NOBODY {
        put_number(line, name, u64::from(id));
    }
}
