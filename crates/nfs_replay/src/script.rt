//! The lines of a script.
ghost use Rattle.std.specs.Prelude.{◌≡◌, option_map};
ghost use Rattle.nfs_ask.specs.Words.{is_nothing, number_of};
ghost use Rattle.nfs_exports.specs.Addresses.{address_of};
ghost use Rattle.nfs_load.specs.Lines as lines;
ghost use Rattle.nfs_replay.specs.Orders as spec;
ghost use Rattle.nfs_replay.specs.Orders.{asked_by, given_by, moment_of, next_by, order_in};
ghost use Rattle.nfs_text.specs.Lines as text;
ghost use Rattle.nfs_text.specs.Words.{words_left};

use nfs_attrs::moment::Moment;
use nfs_exports::addr::{Addr, parse_addr};
use nfs_text::lines::Lines;
use nfs_text::number::decimal;
use nfs_text::words::Words;

/// What a line asks for.
#[derive(Clone, Copy)]
pub enum Order<'a> {
    /// Nothing: a comment, or a line without words.
    Nothing,
    /// A connection.
    Attach {
        conn: u32,
        addr: Addr,
    },
    /// Bytes on a connection.
    Feed {
        conn: u32,
        moment: Moment,
        bytes: Words<'a>,
    },
    /// The end of a connection.
    Detach {
        conn: u32,
    },
    /// A record.
    Send(Sending<'a>),
    /// The listing of the tree.
    Show,
}

/// Which record a line sends.
#[derive(Clone, Copy)]
pub enum Sending<'a> {
    /// The one of these bytes.
    Call {
        addr: Addr,
        moment: Moment,
        bytes: Words<'a>,
    },
    /// That of a call in words.
    Ask {
        addr: Addr,
        moment: Moment,
        words: Words<'a>,
    },
    /// That of an earlier line, once more.
    Again {
        line: u32,
        moment: Option<Moment>,
        addr: Option<Addr>,
    },
}

/// What a line asks for, if it is one that there is. The words of its bytes, at least one, are not
/// looked at.
pub(crate) fn order_of(line: &[u8]) -> Option<Order<'_>>
    ensures { option_map asked_by result ≡ order_in line.now }
{
    if is_comment(line) {
        return Some(Order::Nothing);
    }
    let mut words = Words::new(line);
    match words.next() {
        Some(word) => order_by(word, words),
        None => Some(Order::Nothing),
    }
}

/// Whether a line of a script asks for the record of an earlier one.
pub(crate) fn has_again(script: &[u8]) -> bool
    ensures { result ≡ spec.has_again (text.lines script.now) }
{
    let mut left = Lines::new(script);
    while let Some(line) = left.next() {
        if is_again(line) {
            return true;
        }
    }
    false
}

fn is_again(line: &[u8]) -> bool
    ensures { result ≡ spec.is_again (order_in line.now) }
{
    matches!(order_of(line), Some(Order::Send(Sending::Again { .. })))
}

// Whether a line is one of the writer's own.
fn is_comment(line: &[u8]) -> bool
    ensures { result ≡ lines.is_comment line.now }
{
    match line.first() {
        Some(byte) => *byte == b'#',
        None => false,
    }
}

// What a line with this first word asks for.
fn order_by<'a>(word: &[u8], words: Words<'a>) -> Option<Order<'a>>
    ensures { option_map asked_by result ≡ spec.order_by word.now (words_left words.entry) }
{
    if word == b"attach".as_slice() {
        attach(words)
    } else if word == b"detach".as_slice() {
        detach(words)
    } else if word == b"feed".as_slice() {
        feed(words)
    } else if word == b"call".as_slice() {
        call(words)
    } else if word == b"ask".as_slice() {
        ask(words)
    } else if word == b"again".as_slice() {
        again(words)
    } else if word == b"show".as_slice() {
        show(words)
    } else {
        None
    }
}

fn attach<'a>(words: Words<'a>) -> Option<Order<'a>>
    ensures { option_map asked_by result ≡ spec.attach_in (words_left words.entry) }
{
    let mut left = words;
    let conn = number(&mut left)?;
    let addr = address(&mut left)?;
    if is_at_end(left) {
        Some(Order::Attach { conn, addr })
    } else {
        None
    }
}

fn detach<'a>(words: Words<'a>) -> Option<Order<'a>>
    ensures { option_map asked_by result ≡ spec.detach_in (words_left words.entry) }
{
    let mut left = words;
    let conn = number(&mut left)?;
    if is_at_end(left) {
        Some(Order::Detach { conn })
    } else {
        None
    }
}

fn feed<'a>(words: Words<'a>) -> Option<Order<'a>>
    ensures { option_map asked_by result ≡ spec.feed_in (words_left words.entry) }
{
    let mut bytes = words;
    let conn = number(&mut bytes)?;
    let moment = moment(&mut bytes)?;
    if is_at_end(bytes) {
        return None;
    }
    Some(Order::Feed {
        conn,
        moment,
        bytes,
    })
}

fn call<'a>(words: Words<'a>) -> Option<Order<'a>>
    ensures { option_map asked_by result ≡ spec.call_in (words_left words.entry) }
{
    let mut bytes = words;
    let addr = address(&mut bytes)?;
    let moment = moment(&mut bytes)?;
    if is_at_end(bytes) {
        return None;
    }
    Some(Order::Send(Sending::Call {
        addr,
        moment,
        bytes,
    }))
}

fn ask<'a>(words: Words<'a>) -> Option<Order<'a>>
    ensures { option_map asked_by result ≡ spec.ask_in (words_left words.entry) }
{
    let mut left = words;
    let addr = address(&mut left)?;
    let moment = moment(&mut left)?;
    Some(Order::Send(Sending::Ask {
        addr,
        moment,
        words: left,
    }))
}

fn again<'a>(words: Words<'a>) -> Option<Order<'a>>
    ensures { option_map asked_by result ≡ spec.again_in (words_left words.entry) }
{
    let mut left = words;
    let line = number(&mut left)?;
    let moment = moment_given(&mut left)?;
    let addr = address_given(&mut left)?;
    if is_at_end(left) {
        Some(Order::Send(Sending::Again { line, moment, addr }))
    } else {
        None
    }
}

fn show<'a>(words: Words<'a>) -> Option<Order<'a>>
    ensures { option_map asked_by result ≡ spec.show_in (words_left words.entry) }
{
    if is_at_end(words) {
        Some(Order::Show)
    } else {
        None
    }
}

fn is_at_end(words: Words<'_>) -> bool
    ensures { result ≡ is_nothing (words_left words.entry) }
{
    let mut left = words;
    left.next().is_none()
}

// The next word as a number, decimal digits to the largest `u32`.
fn number(words: &mut Words<'_>) -> Option<u32>
    ensures { option_map (λ n. (n, words_left words.new)) result ≡ next_by number_of (words_left words.old) }
{
    match decimal(words.next()?, u64::from(u32::MAX)) {
        Some(number) => Some(number as u32),
        None => None,
    }
}

// The next word as a moment.
fn moment(words: &mut Words<'_>) -> Option<Moment>
    ensures { option_map (λ m. (m, words_left words.new)) result ≡ next_by moment_of (words_left words.old) }
{
    moment_in(words.next()?)
}

// The same, or that no word is left.
fn moment_given(words: &mut Words<'_>) -> Option<Option<Moment>>
    ensures { option_map (λ m. (m, words_left words.new)) result ≡ given_by moment_of (words_left words.old) }
{
    match words.next() {
        Some(word) => Some(Some(moment_in(word)?)),
        None => Some(None),
    }
}

// A word as a moment, in whole seconds.
fn moment_in(word: &[u8]) -> Option<Moment>
    ensures { result ≡ moment_of word.now }
{
    match decimal(word, u64::from(u32::MAX)) {
        Some(seconds) => Some(Moment {
            seconds: seconds as u32,
            nanos: 0,
        }),
        None => None,
    }
}

// The next word as an address.
fn address(words: &mut Words<'_>) -> Option<Addr>
    ensures { option_map (λ a. (a, words_left words.new)) result ≡ next_by address_of (words_left words.old) }
{
    address_in(words.next()?)
}

// The same, or that no word is left.
fn address_given(words: &mut Words<'_>) -> Option<Option<Addr>>
    ensures { option_map (λ a. (a, words_left words.new)) result ≡ given_by address_of (words_left words.old) }
{
    match words.next() {
        Some(word) => Some(Some(address_in(word)?)),
        None => Some(None),
    }
}

// A word as an address.
fn address_in(word: &[u8]) -> Option<Addr>
    ensures { result ≡ address_of word.now }
{
    match parse_addr(word) {
        Ok(addr) => Some(addr),
        Err(_) => None,
    }
}
