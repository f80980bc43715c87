//! The calls that a service denied, as it answers.

use crate::file_paths::FilePaths;
use crate::sentences::sentence_of;
use nfs_inodes::tree::Tree;
use nfs_lines::denials::{Denial, Denials, RuleCount};
use nfs_lines::names::procedure_name;
use nfs_lines::rule_names::name_of;
use nfs_lines::subject::Subject;
use nfs_lines::timestamp::timestamp;
use nfs_text::line::Line;
use nfs_words::text::Text;
use std::alloc::{AllocError, Global};
use std::collections::BTreeSet;

/// The answer to `denied N`: for each rule by which calls were denied the line `rule NAME calls=N`, and then the last N
/// calls that were denied, the oldest first: `MOMENT` and the call's audit line, ` call=NAME`, ` path=PATH` where that
/// is known, and `: ` with what the rule says.
pub(crate) fn denied_text(
    alloc: Global,
    tree: &Tree,
    denials: &Denials,
    most: usize,
) -> Result<Vec<u8>, AllocError> {
    let mut out = Text::new(alloc);
    out.put_field(b"denied ", denials.calls());
    out.put(b"\n");
    put_counts(&mut out, denials.counts());
    let first = denials.kept().saturating_sub(most);
    let paths = FilePaths::find(alloc, tree, &numbers_of(alloc, denials, first)?)?;
    for place in first..denials.kept() {
        if let Some(denial) = denials.get(place) {
            put_denial(alloc, &mut out, &paths, denial)?;
        }
    }
    out.into_bytes()
}

fn put_counts(out: &mut Text, counts: &[RuleCount]) {
    for counted in counts {
        out.put(b"rule ");
        out.put(name_of(counted.reason).as_bytes());
        out.put_field(b" calls=", counted.calls);
        out.put(b"\n");
    }
}

// The numbers of the files that the calls from a place on were about.
fn numbers_of(alloc: Global, denials: &Denials, first: usize) -> Result<BTreeSet<u64>, AllocError> {
    let mut numbers = BTreeSet::new(alloc);
    for place in first..denials.kept() {
        if let Some(denial) = denials.get(place)
            && let Subject::File(number) | Subject::Entry(number, _) = &denial.subject
        {
            numbers.insert(number.0)?;
        }
    }
    Ok(numbers)
}

fn put_denial(
    alloc: Global,
    out: &mut Text,
    paths: &FilePaths<'_>,
    denial: &Denial,
) -> Result<(), AllocError> {
    let mut line = Line::new();
    denial.line.put(&mut line);
    out.put(timestamp(alloc, denial.moment)?.as_bytes());
    out.put(b" ");
    out.put(line.as_slice().trim_ascii_end());
    if let Some(name) = procedure_name(denial.line.program, denial.line.procedure) {
        out.put(b" call=");
        out.put(name);
    }
    put_subject(alloc, out, paths, &denial.subject)?;
    out.put(b": ");
    out.put(sentence_of(denial.line.reason).as_bytes());
    out.put(b"\n");
    Ok(())
}

// What a call was about.
fn put_subject(
    alloc: Global,
    out: &mut Text,
    paths: &FilePaths<'_>,
    subject: &Subject,
) -> Result<(), AllocError> {
    match subject {
        Subject::Unknown => {}
        Subject::File(number) => {
            out.put(b" path=");
            paths.put(alloc, out, *number)?;
        }
        Subject::Entry(number, name) => {
            out.put(b" path=");
            paths.put(alloc, out, *number)?;
            out.put(b"/");
            out.put_name(name.as_slice());
        }
        Subject::Volume(path) => {
            out.put(b" path=");
            out.put_name(path.as_slice());
        }
    }
    Ok(())
}
