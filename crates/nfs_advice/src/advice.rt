//! What is wrong at a place of a line, and what would be right.
ghost use Rattle.std.specs.Prelude.{◌≡◌};
ghost use Rattle.nfs_advice.specs.declared.advice.Remedy.TheVariants.{Said};

use crate::bytes::ByteReason;
use crate::contents::ContentReason;
use crate::counts::CountReason;
use crate::earlier::EarlierReason;
use crate::keys::KeyReason;
use crate::keywords::KeywordReason;
use crate::limit_fields::LimitFieldReason;
use crate::limits::LimitReason;
use crate::name_forms::NameFormReason;
use crate::numbers::NumberReason;
use crate::options::OptionReason;
use crate::order::OrderReason;
use crate::paths::PathReason;
use crate::patterns::PatternReason;
use crate::script::ScriptReason;
use crate::span::Span;
use crate::warnings::WarningReason;
use std::fmt;

// How many bytes of a word are shown.
const MAX_SHOWN: usize = 60;

/// What is wrong at a place of a line, and what would be right. It is printed as the column, the word
/// between quotes if there is one, and the reason.
#[derive(Clone, Copy)]
pub struct Advice<'a> {
    /// The word; where something is missing, a part without bytes.
    pub span: Span<'a>,
    /// What is wrong with it.
    pub reason: AdviceReason,
    /// What would be right, beyond what the reason says.
    pub remedy: Remedy<'a>,
}

/// What is wrong with a word, by what is looked at.
#[derive(Clone, Copy)]
pub enum AdviceReason {
    /// A byte.
    Byte(ByteReason),
    /// The first word of a line.
    Keyword(KeywordReason),
    /// The number of fields.
    Count(CountReason),
    /// Which lines stand above.
    Order(OrderReason),
    /// A server's key.
    Key(KeyReason),
    /// A path.
    Path(PathReason),
    /// A number.
    Number(NumberReason),
    /// A pattern of addresses.
    Pattern(PatternReason),
    /// An option.
    Option(OptionReason),
    /// What a file or a link holds.
    Content(ContentReason),
    /// What a line above has made, or hasn't.
    Earlier(EarlierReason),
    /// A limit that is reached.
    Limit(LimitReason),
    /// A field that sets a limit.
    LimitField(LimitFieldReason),
    /// A form of names.
    NameForm(NameFormReason),
    /// A line of a script.
    Script(ScriptReason),
    /// A word that is in order, and may not be meant.
    Warning(WarningReason),
}

/// What would be right, beyond what the reason says.
#[derive(Clone, Copy)]
pub enum Remedy<'a> {
    /// Nothing more.
    Said,
    /// Another word, which was nearly written.
    Meant(&'static [u8]),
    /// A network of this address and so many bits.
    Network(&'a [u8], u32),
    /// What another part of the line, or a line above, says.
    Part(Span<'a>),
    /// A line above, by its number.
    Line(u64),
}

impl<'a> Advice<'a> {
    /// A reason that says all.
    pub fn new(span: Span<'a>, reason: AdviceReason) -> Advice<'a>
        ensures { result ≡ record { span = span.entry; reason = reason; remedy = Said } }
    {
        Advice {
            span,
            reason,
            remedy: Remedy::Said,
        }
    }

    /// The same with a remedy.
    pub fn with(self, remedy: Remedy<'a>) -> Advice<'a>
        ensures { result ≡ record self.entry { remedy = remedy.entry } }
    {
        Advice {
            span: self.span,
            reason: self.reason,
            remedy,
        }
    }
}

impl fmt::Display for Advice<'_> {
    fn fmt<W: fmt::Write>(&self, f: &mut fmt::Formatter<W>) -> fmt::Result {
        write!(f, "{}: ", self.span.column())?;
        if !self.span.is_empty() {
            write_quoted(f, self.span.bytes())?;
            f.write_str(" ")?;
        }
        self.reason.fmt(f)?;
        self.remedy.fmt(f)
    }
}

impl fmt::Display for AdviceReason {
    fn fmt<W: fmt::Write>(&self, f: &mut fmt::Formatter<W>) -> fmt::Result {
        match self {
            AdviceReason::Byte(reason) => f.write_str(reason.text()),
            AdviceReason::Keyword(reason) => f.write_str(reason.text()),
            AdviceReason::Count(reason) => reason.fmt(f),
            AdviceReason::Order(reason) => f.write_str(reason.text()),
            AdviceReason::Key(reason) => f.write_str(reason.text()),
            AdviceReason::Path(reason) => f.write_str(reason.text()),
            AdviceReason::Number(reason) => reason.fmt(f),
            AdviceReason::Pattern(reason) => f.write_str(reason.text()),
            AdviceReason::Option(reason) => f.write_str(reason.text()),
            AdviceReason::Content(reason) => reason.fmt(f),
            AdviceReason::Earlier(reason) => f.write_str(reason.text()),
            AdviceReason::Limit(reason) => reason.fmt(f),
            AdviceReason::LimitField(reason) => f.write_str(reason.text()),
            AdviceReason::NameForm(reason) => f.write_str(reason.text()),
            AdviceReason::Script(reason) => f.write_str(reason.text()),
            AdviceReason::Warning(reason) => reason.fmt(f),
        }
    }
}

impl fmt::Display for Remedy<'_> {
    fn fmt<W: fmt::Write>(&self, f: &mut fmt::Formatter<W>) -> fmt::Result {
        match self {
            Remedy::Said => Ok(()),
            Remedy::Meant(word) => {
                f.write_str("; did you mean ")?;
                write_quoted(f, word)?;
                f.write_str("?")
            }
            Remedy::Network(address, bits) => {
                f.write_str("; write ")?;
                write_bytes(f, address)?;
                write!(f, "/{bits}")
            }
            Remedy::Part(span) => {
                f.write_str(" ")?;
                write_quoted(f, span.bytes())
            }
            Remedy::Line(number) => write!(f, "; see line {number}"),
        }
    }
}

// Writes a word between quotes, of a long one its first bytes.
fn write_quoted<W: fmt::Write>(f: &mut fmt::Formatter<W>, word: &[u8]) -> fmt::Result {
    f.write_str("\"")?;
    match word.get(..MAX_SHOWN) {
        Some(first) if word.len() > MAX_SHOWN => {
            write_bytes(f, first)?;
            f.write_str("..\"")
        }
        _ => {
            write_bytes(f, word)?;
            f.write_str("\"")
        }
    }
}

// Writes the characters of bytes, `?` for those that are none of ASCII.
fn write_bytes<W: fmt::Write>(f: &mut fmt::Formatter<W>, bytes: &[u8]) -> fmt::Result {
    for byte in bytes {
        let shown = if byte.is_ascii_graphic() || *byte == b' ' {
            *byte
        } else {
            b'?'
        };
        f.write_char(char::from(shown))?;
    }
    Ok(())
}
