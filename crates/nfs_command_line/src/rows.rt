//! Rows that say what a command takes, and what the library makes of them.

use clap::{Arg, ArgAction, Command, value_parser};
use std::alloc::{AllocError, Global};

/// A command.
#[derive(Clone, Copy)]
pub(crate) struct CommandRow {
    /// Its name.
    pub(crate) name: &'static str,
    /// What it does, in a line.
    pub(crate) about: &'static str,
    /// What it takes.
    pub(crate) args: &'static [ArgRow],
}

/// A word or an option of a command.
#[derive(Clone, Copy)]
pub(crate) struct ArgRow {
    /// Its name; of an option the one after `--`.
    pub(crate) id: &'static str,
    /// What its value is called; none where it has no value.
    pub(crate) value: &'static str,
    /// What it says.
    pub(crate) help: &'static str,
    /// What may be given.
    pub(crate) takes: Takes,
}

/// What may be given for a word or an option.
#[derive(Clone, Copy)]
pub(crate) enum Takes {
    /// A word that has to be there.
    Word,
    /// A word that has to be there, and may be repeated.
    Words,
    /// A word that may be missing.
    OptionalWord,
    /// Nothing: the option itself.
    Flag,
    /// A text.
    Text,
    /// A text; without it this one.
    TextOr(&'static str),
    /// A text that makes no sense without another option.
    TextBeside(&'static str),
    /// A text, and the option may be repeated.
    Texts,
    /// A text, and the option may be repeated; without it this one.
    TextsOr(&'static str),
    /// One of two texts; without it the first.
    OneOf(&'static [&'static str; 2]),
    /// One of two texts that makes no sense without another option; without it the first.
    OneOfBeside(&'static [&'static str; 2], &'static str),
    /// A number of 64 bits.
    Number,
    /// A number of 64 bits, and the option may be repeated.
    Numbers,
    /// A number between two.
    Between(i64, i64),
    /// A number between two; without it this one.
    BetweenOr(i64, i64, &'static str),
    /// A number between two that makes no sense without another option.
    BetweenBeside(i64, i64, &'static str),
}

/// The command of a row.
pub(crate) fn command_of<'a>(alloc: Global, row: &CommandRow) -> Result<Command<'a>, AllocError> {
    let mut command = Command::new(alloc, row.name).about(row.about);
    for arg in row.args {
        command = command.arg(arg_of(alloc, arg)?)?;
    }
    Ok(command)
}

// The word or option of a row.
fn arg_of<'a>(alloc: Global, row: &ArgRow) -> Result<Arg<'a>, AllocError> {
    match row.takes {
        Takes::Word => Ok(word(alloc, row).required(true)),
        Takes::Words => Ok(
            word(alloc, row)
                .required(true)
                .num_args(1..)
                .action(ArgAction::Append),
        ),
        Takes::OptionalWord => Ok(word(alloc, row)),
        Takes::Flag => Ok(
            Arg::new(alloc, row.id)
                .long(row.id)
                .action(ArgAction::SetTrue)
                .help(row.help),
        ),
        Takes::Texts => Ok(option(alloc, row).action(ArgAction::Append)),
        Takes::TextsOr(default) => Ok(
            option(alloc, row)
                .action(ArgAction::Append)
                .default_value(default),
        ),
        Takes::TextBeside(other) => option(alloc, row).requires_arg(other),
        Takes::OneOfBeside(values, other) => one_of(alloc, row, values).requires_arg(other),
        Takes::BetweenBeside(from, to, other) => between(alloc, row, from, to).requires_arg(other),
        other => Ok(valued(alloc, row, other)),
    }
}

// An option with a text or a number.
fn valued<'a>(alloc: Global, row: &ArgRow, takes: Takes) -> Arg<'a> {
    match takes {
        Takes::TextOr(default) => option(alloc, row).default_value(default),
        Takes::OneOf(values) => one_of(alloc, row, values),
        Takes::Number => option(alloc, row).value_parser(value_parser!(u64)),
        Takes::Numbers => option(alloc, row)
            .action(ArgAction::Append)
            .value_parser(value_parser!(u64)),
        Takes::Between(from, to) => between(alloc, row, from, to),
        Takes::BetweenOr(from, to, default) => between(alloc, row, from, to).default_value(default),
        _ => option(alloc, row),
    }
}

fn word<'a>(alloc: Global, row: &ArgRow) -> Arg<'a> {
    Arg::new(alloc, row.id).value_name(row.value).help(row.help)
}

fn option<'a>(alloc: Global, row: &ArgRow) -> Arg<'a> {
    word(alloc, row).long(row.id)
}

fn one_of<'a>(alloc: Global, row: &ArgRow, values: &'static [&'static str; 2]) -> Arg<'a> {
    option(alloc, row)
        .value_parser(values.as_slice())
        .default_value(values[0])
}

fn between<'a>(alloc: Global, row: &ArgRow, from: i64, to: i64) -> Arg<'a> {
    option(alloc, row).value_parser(value_parser!(u32).range(from..=to))
}
