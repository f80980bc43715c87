//! Files of rows, and how many of their answers are wrong.

use crate::definitions::Definitions;
use std::process::ExitCode;
use std::rt::{Env, Files};
use std::str::SplitWhitespace;
use std::{env, fs, io};

/// What answers the questions of rows.
pub trait Answers {
    /// The answer to a question: a verb with its words. `None` where it is no question, or there
    /// is no memory.
    fn answer(&mut self, verb: &str, words: &mut SplitWhitespace<'_>) -> Option<String>;
}

// How many rows there were, and how many of them have another answer than the one wanted.
#[derive(Clone, Copy)]
struct Tally {
    rows: u32,
    wrong: u32,
}

/// Asks the rows of the files that the program's words name, in turn. Prints each row that has
/// another answer than the one wanted, and how many rows there were.
///
/// The program fails where a row is wrong or there is none. An error comes where a file can't be
/// read, the output can't be written, or there is no memory.
pub fn run<R: Env + Files + Print + AllocGlobal, A: Answers>(
    rt: &R,
    answers: &mut A,
) -> io::Result<ExitCode> {
    let mut tally = Tally { rows: 0, wrong: 0 };
    for name in env::args(rt)?.skip(1).collect::<Vec<String>>(rt.alloc())? {
        let text = fs::read_to_string(rt, name.as_str())?;
        ask_all(rt, name.as_str(), text.as_str(), answers, &mut tally)?;
    }
    println!(rt; "{} rows, {} wrong", tally.rows, tally.wrong)?;
    if tally.rows > 0 && tally.wrong == 0 {
        Ok(ExitCode::SUCCESS)
    } else {
        Ok(ExitCode::FAILURE)
    }
}

// The rows of one file: its lines but those that are empty, those that begin with `#`, and those
// that let a name stand for a text.
fn ask_all<R: Print + AllocGlobal, A: Answers>(
    rt: &R,
    file: &str,
    text: &str,
    answers: &mut A,
    tally: &mut Tally,
) -> io::Result<()> {
    let mut definitions = Definitions::new(rt.alloc());
    for (index, line) in text.lines().enumerate() {
        if line.is_empty() || line.starts_with('#') {
            continue;
        }
        let row = definitions.expand(line)?;
        let (question, want) = row.as_str().split_once(" = ").unwrap_or((row.as_str(), ""));
        if let Some(name) = question.strip_prefix("let ") {
            definitions.add(name, want)?;
            continue;
        }
        tally.rows = tally.rows.saturating_add(1);
        let answer = answer_to(question, answers);
        let answer = answer
            .as_ref()
            .map(|text| text.as_str())
            .unwrap_or("no answer");
        if !is_same(answer, want) {
            tally.wrong = tally.wrong.saturating_add(1);
            let number = index.saturating_add(1);
            println!(rt; "{file}:{number}: {question}\n  gives {answer}\n  wants {want}")?;
        }
    }
    Ok(())
}

// The answer to a question.
fn answer_to<A: Answers>(question: &str, answers: &mut A) -> Option<String> {
    let mut words = question.split_whitespace();
    let verb = words.next()?;
    answers.answer(verb, &mut words)
}

// Whether two texts are the same but for spaces.
fn is_same(answer: &str, want: &str) -> bool {
    let mut wanted = want.bytes().filter(|byte| *byte != b' ');
    for byte in answer.bytes() {
        if byte != b' ' && wanted.next() != Some(byte) {
            return false;
        }
    }
    wanted.next().is_none()
}
