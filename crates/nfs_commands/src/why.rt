//! `nfs3d why`: why a call is granted or denied.

use nfs_command_line::invocation::Why;
use nfs_named::named::NamedTree;
use nfs_source::description::Description;
use nfs_source::diagnostic::Diagnostic;
use nfs_source::fault::Fault;
use nfs_source::output::print;
use nfs_why::question::{BadQuestion, Question};
use nfs_why::why::put_answer;
use nfs_words::text::Text;
use std::alloc::Global;
use std::mem::forget;
use std::process::ExitCode;
use std::rt::Files;

/// Prints why the call that the words describe is granted or denied. The status is 0 where it is granted, 1 where it is
/// denied, 2 where one of the words is faulty. The faults of `NamedTree::read`; `Write` and `Closed` where the output fails.
pub fn print_why<R: Files + Input + Print + Eprint + AllocGlobal>(
    rt: &R,
    alloc: Global,
    words: Why<'_, '_>,
) -> Result<ExitCode, Diagnostic> {
    match question_of(words) {
        Ok(question) => print_answer(rt, alloc, words, &question),
        Err(fault) => {
            let _ = eprintln!(rt; "error: {fault}");
            Ok(ExitCode::from(2))
        }
    }
}

fn question_of<'a>(words: Why<'a, '_>) -> Result<Question<'a>, BadQuestion> {
    let second = match words.second() {
        Some(second) => Some(second.as_bytes()),
        None => None,
    };
    Question::read(
        words.address().as_bytes(),
        words.user().as_bytes(),
        words.operation().as_bytes(),
        words.path().as_bytes(),
        second,
    )
}

fn print_answer<R: Files + Input + Print + Eprint + AllocGlobal>(
    rt: &R,
    alloc: Global,
    words: Why<'_, '_>,
    question: &Question<'_>,
) -> Result<ExitCode, Diagnostic> {
    let NamedTree { description, .. } = NamedTree::read(rt, alloc, words.tree())?;
    let Description { source, loaded } = &description;
    let mut answer = Text::new(alloc);
    let is_granted = put_answer(source.text.as_slice(), loaded, question, &mut answer);
    forget(description);
    if !words.is_quiet() {
        print_text(rt, answer)?;
    }
    Ok(if is_granted {
        ExitCode::SUCCESS
    } else {
        ExitCode::FAILURE
    })
}

fn print_text<R: Print>(rt: &R, text: Text) -> Result<(), Fault> {
    let bytes = text.into_bytes()?;
    print(rt, bytes.as_slice())
}
