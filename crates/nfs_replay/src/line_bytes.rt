//! The words of a script's line as bytes: those of a record, or those of a call that is asked for.
ghost use Rattle.std.specs.Prelude.{◌≡◌, Ok, IfOk, IfErr, OnOk, OnErr};
ghost use Rattle.nfs_replay.specs.Scripts.{HasRecord, IsCauseOf, IsRefused, bytes_in, handle_in, onto, word_in};
ghost use Rattle.nfs_text.specs.Words.{words_left};

use crate::fault::RunFault;
use crate::hexadecimal::push_bytes;
use crate::line_fault::LineFault;
use nfs_ask::ask::Ask;
use nfs_ask::fault::AskFault;
use nfs_ask::script_fault::LineCause;
use nfs_inodes::tree::Tree;
use nfs_text::number::decimal;
use nfs_text::words::Words;
use std::alloc::Global;

/// The bytes that words say, from left to right: hexadecimal digits, or the handle of a file. The first
/// cause where there is one.
pub(crate) fn bytes_of(alloc: Global, tree: &Tree, words: Words<'_>) -> Result<Vec<u8>, LineFault>
    ensures ok { IfOk result (λ bytes. bytes_in tree.now (words_left words.entry) ≡ Ok bytes.items) }
    ensures fault { IfErr result (IsCauseOf (bytes_in tree.now (words_left words.entry))) }
{
    let mut bytes = Vec::new(alloc);
    let mut left = words;
    while let Some(word) = left.next() {
        push_word(alloc, tree, &mut bytes, word)?;
    }
    Ok(bytes)
}

// Adds the bytes that a word says.
fn push_word(alloc: Global, tree: &Tree, bytes: &mut Vec<u8>, word: &[u8]) -> Result<(), LineFault>
    ensures ok { OnOk result (onto bytes.old.items (word_in tree.now word.now) ≡ Ok bytes.new.items) }
    ensures fault { IfErr result (IsCauseOf (word_in tree.now word.now)) }
    ensures err { OnErr result (bytes.new.items ≡ bytes.old.items) }
{
    match word.split_first() {
        Some((first, number)) if *first == b'@' => push_handle(tree, bytes, number),
        _ => push_bytes(alloc, bytes, word),
    }
}

// Adds the handle of the file of this number.
fn push_handle(tree: &Tree, bytes: &mut Vec<u8>, digits: &[u8]) -> Result<(), LineFault>
    ensures ok { OnOk result (onto bytes.old.items (handle_in tree.now digits.now) ≡ Ok bytes.new.items) }
    ensures fault { IfErr result (IsCauseOf (handle_in tree.now digits.now)) }
    ensures err { OnErr result (bytes.new.items ≡ bytes.old.items) }
{
    let Some(number) = decimal(digits, u64::MAX) else {
        return Err(LineFault::OfLine(LineCause::BadHex));
    };
    let Some(handle) = tree.handle_of(number) else {
        return Err(LineFault::OfLine(LineCause::NoHandle));
    };
    match bytes.extend_from_slice(&handle) {
        Ok(()) => Ok(()),
        Err(_) => Err(LineFault::OfRun(RunFault::Memory)),
    }
}

/// The record that words ask for, by this number where they give none.
pub(crate) fn record_of(
    alloc: Global,
    tree: &Tree,
    words: Words<'_>,
    xid: u32,
) -> Result<Vec<u8>, AskFault>
    ensures record { IfOk result (λ bytes. HasRecord tree.now xid (words_left words.entry) bytes.items) }
    ensures fault { IfErr result (IsRefused tree.now xid (words_left words.entry)) }
{
    match Ask::read(words) {
        Ok(ask) => ask.record(alloc, tree, xid),
        Err(fault) => Err(fault),
    }
}
