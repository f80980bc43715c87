//! Lines that lack one above them, or have one too many.
ghost use Rattle.std.specs.Prelude.{◌≡◌};

use crate::advice::{Advice, AdviceReason, Remedy};
use crate::earlier::first_line_of;
use crate::span::Span;
use nfs_load::cause::Cause;

/// What is wrong with the order of lines.
#[derive(Clone, Copy)]
pub enum OrderReason {
    /// The server's line stands below, or nowhere.
    BeforeServer,
    /// The text has no server's line.
    NoServer,
    /// The server's line stands above.
    SecondServer,
    /// The volume's line stands below, or nowhere.
    BeforeVolume,
    /// The text has no volume's line.
    NoVolume,
    /// A volume's line stands above one of limits.
    LimitsAfterVolume,
    /// A volume's line stands above one of names.
    NamesAfterVolume,
}

impl OrderReason {
    /// What is reported.
    pub(crate) fn text(self) -> &'static str {
        match self {
            OrderReason::BeforeServer => {
                "stands before the server's line; begin with server KEY, 16 hexadecimal digits"
            }
            OrderReason::NoServer => {
                "the text has no server's line; begin with server KEY, 16 hexadecimal digits"
            }
            OrderReason::SecondServer => "stands here a second time",
            OrderReason::BeforeVolume => {
                "belongs to a volume; write volume PATH BYTES FILES MODE UID GID above it"
            }
            OrderReason::NoVolume => {
                "the text has no volume; write volume PATH BYTES FILES MODE UID GID"
            }
            OrderReason::LimitsAfterVolume => {
                "stands after a volume; write limits before the first volume"
            }
            OrderReason::NamesAfterVolume => {
                "stands after a volume; write names before the first volume"
            }
        }
    }
}

/// What a line lacks above it, or a text at its end, where `line` has no word.
pub(crate) fn out_of_order<'a>(text: &'a [u8], line: Span<'a>, cause: Cause) -> Advice<'a>
    ensures { result.span.line.now ≡ line.entry.line.now }
{
    match (line.word(0), cause) {
        (Some(word), Cause::NoServer) => {
            Advice::new(word, AdviceReason::Order(OrderReason::BeforeServer))
        }
        (None, Cause::NoServer) => Advice::new(line, AdviceReason::Order(OrderReason::NoServer)),
        (Some(word), Cause::NoVolume) => {
            Advice::new(word, AdviceReason::Order(OrderReason::BeforeVolume))
        }
        (None, Cause::NoVolume) => Advice::new(line, AdviceReason::Order(OrderReason::NoVolume)),
        (Some(word), Cause::LimitsLate) => Advice::new(
            word,
            AdviceReason::Order(OrderReason::LimitsAfterVolume),
        ).with(Remedy::Line(first_line_of(text, b"volume"))),
        (Some(word), Cause::NamesLate) => Advice::new(
            word,
            AdviceReason::Order(OrderReason::NamesAfterVolume),
        ).with(Remedy::Line(first_line_of(text, b"volume"))),
        (word, _) => Advice::new(
            word.unwrap_or(line),
            AdviceReason::Order(OrderReason::SecondServer),
        )
        .with(Remedy::Line(first_line_of(text, b"server"))),
    }
}
