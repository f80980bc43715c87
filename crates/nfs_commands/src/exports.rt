//! `nfs3d exports`: who may reach which volume.
ghost use Rattle.std.specs.Prelude.{◌≡◌, IfOk};
ghost use Rattle.nfs_why.specs.Exports.{exports_text};

use nfs_command_line::sharing::TreeWords;
use nfs_load::loaded::Loaded;
use nfs_named::named::NamedTree;
use nfs_source::diagnostic::Diagnostic;
use nfs_source::output::print;
use nfs_why::exports::put_exports;
use nfs_words::text::Text;
use std::alloc::{AllocError, Global};
use std::mem::forget;
use std::process::ExitCode;
use std::rt::Files;

/// Prints the exports of what the words name. The faults of `NamedTree::read`; `Write` and `Closed` where
/// the output fails.
pub fn print_exports<R: Files + Input + Print + Eprint + AllocGlobal>(
    rt: &R,
    alloc: Global,
    words: TreeWords<'_, '_>,
) -> Result<ExitCode, Diagnostic> {
    let loaded = NamedTree::load(rt, alloc, words)?;
    let lines = lines_of(alloc, &loaded);
    forget(loaded);
    print(rt, lines?.as_slice())?;
    Ok(ExitCode::SUCCESS)
}

// The lines of all exports.
fn lines_of(alloc: Global, loaded: &Loaded) -> Result<Vec<u8>, AllocError>
    ensures { IfOk result (λ lines. lines.items ≡ exports_text loaded.now.tree loaded.now.table) }
{
    let mut lines = Text::new(alloc);
    put_exports(&mut lines, loaded);
    lines.into_bytes()
}
