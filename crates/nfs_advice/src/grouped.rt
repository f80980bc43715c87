//! Numbers with a comma after each three digits.

use std::fmt;

const GROUPS: [u64; 7] = [
    1_000_000_000_000_000_000,
    1_000_000_000_000_000,
    1_000_000_000_000,
    1_000_000_000,
    1_000_000,
    1_000,
    1,
];

/// Writes a number in groups of three digits.
pub(crate) fn write_grouped<W: fmt::Write>(f: &mut fmt::Formatter<W>, number: u64) -> fmt::Result {
    for group in &GROUPS {
        let above = number.checked_div(*group).unwrap_or(0);
        if above >= 1_000 {
            write!(f, ",{:03}", above % 1_000)?;
        } else if above > 0 || *group == 1 {
            write!(f, "{above}")?;
        }
    }
    Ok(())
}

/// Writes a number between two texts.
pub(crate) fn write_between<W: fmt::Write>(
    f: &mut fmt::Formatter<W>,
    before: &str,
    number: u64,
    after: &str,
) -> fmt::Result {
    f.write_str(before)?;
    write_grouped(f, number)?;
    f.write_str(after)
}
