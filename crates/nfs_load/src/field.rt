//! Fields that are a key or numbers.
ghost use Rattle.std.specs.Prelude.{◌/◌, ◌≡◌, ◌≤◌, ◌*◌, ◌↔◌, IfOk, IsTrue, Err, false, bytes_eq, codes, length, nat_lt};
ghost use Rattle.hex.specs.Hex.{is_hex_digit};
ghost use Rattle.nfs_load.specs.Fields.{content_in, key_in, mode_in, number_in, target_in};
ghost use Rattle.nfs_load.specs.Fields.{GivesIfRoom, SaysBytes, ArePairs};

use crate::cause::Cause;
use crate::limits::MAX_MODE_DIGITS;
use crate::name_form::NameForm;
use crate::refusal::Refusal;
use crate::target::Target;
use nfs_content::pages::Pages;
use nfs_inodes::tree::Tree;
use nfs_text::number::decimal;
use std::alloc::Global;

/// A server's key of 8 bytes. `BadKey` where the field is not 16 hexadecimal digits of either case.
pub(crate) fn read_key(field: &[u8]) -> Result<[u8; 8], Cause>
    ensures { result ≡ key_in field.now }
{
    let mut key = [0u8; 8];
    match hex::decode_to_slice(field, &mut key) {
        Ok(()) => Ok(key),
        Err(_) => Err(Cause::BadKey),
    }
}

/// A mode. `BadNumber` where the field is not one to four octal digits.
pub(crate) fn read_mode(field: &[u8]) -> Result<u32, Cause>
    ensures { result ≡ mode_in field.now }
{
    if field.is_empty() || field.len() > MAX_MODE_DIGITS {
        return Err(Cause::BadNumber);
    }
    let mut mode = 0;
    for byte in field {
        if *byte < b'0' || *byte > b'7' {
            return Err(Cause::BadNumber);
        }
        mode = mode * 8 + u32::from(*byte - b'0');
    }
    Ok(mode)
}

/// A number from `min` to `max`. `BadNumber` where the field is not decimal digits, leading zeros
/// allowed, that say one.
pub(crate) fn read_number(field: &[u8], min: u64, max: u64) -> Result<u64, Cause>
    ensures read { result ≡ number_in min max field.now }
    ensures bounds { IfOk result (λ n. (min ≤ n) × (n ≤ max)) }
{
    match decimal(field, max) {
        Some(number) if min <= number => Ok(number),
        _ => Err(Cause::BadNumber),
    }
}

/// What a symbolic link holds. `BadContent` where the field is none, or says more bytes than the tree takes
/// of one.
pub(crate) fn read_target<'a>(
    field: &'a [u8],
    names: NameForm,
    tree: &Tree,
) -> Result<Target<'a>, Cause>
    ensures { result ≡ target_in names tree.now.limits.link_path field.entry.now }
{
    tree.law();
    match Target::read(field, names, tree.limits().link_path) {
        Some(target) => Ok(target),
        None => Err(Cause::BadContent),
    }
}

/// A file's bytes, two hexadecimal digits each, or `-` for none. `BadContent` where the field is
/// neither, or says more bytes than the tree takes of a file; `Memory` where there is none.
pub(crate) fn read_content(alloc: Global, field: &[u8], tree: &Tree) -> Result<Pages, Refusal>
    ensures { GivesIfRoom (λ content. content) (SaysBytes tree.now.limits.file_size field.now) result
        (content_in tree.now.limits.file_size field.now) }
{
    if field == b"-".as_slice() {
        return Ok(Pages::zeros(alloc, 0));
    }
    if has_too_many_digits(field, tree) {
        return Err(Refusal::Fault(Cause::BadContent));
    }
    tree.law();
    match hex::decode(alloc, field) {
        Ok(content) => Ok(Pages::of(alloc, content)?),
        Err(hex::FromHexError::OutOfMemory) => Err(without_memory(field, tree)),
        Err(_) => Err(Refusal::Fault(Cause::BadContent)),
    }
}

// Whether a field has more digits than the largest file of a tree, two for each byte.
fn has_too_many_digits(field: &[u8], tree: &Tree) -> bool
    ensures { result ≡ nat_lt tree.now.limits.file_size (length field.now / 2) }
{
    field.len() / 2 > tree.limits().file_size
}

// Why a field is refused whose bytes there is no memory for: it says none, or there is none.
fn without_memory(field: &[u8], tree: &Tree) -> Refusal
    requires digits { bytes_eq field.now (codes "-") ≡ false }
    requires few { length field.now / 2 ≤ tree.now.limits.file_size }
    ensures { GivesIfRoom (λ content. content) (SaysBytes tree.now.limits.file_size field.now) (Err result)
        (content_in tree.now.limits.file_size field.now) }
{
    if are_pairs(field) {
        Refusal::Memory
    } else {
        Refusal::Fault(Cause::BadContent)
    }
}

// Whether a byte is a hexadecimal digit of either case.
fn is_digit(byte: u8) -> bool
    ensures { result ≡ is_hex_digit byte }
{
    match byte {
        b'A'..=b'F' | b'a'..=b'f' | b'0'..=b'9' => true,
        _ => false,
    }
}

// Whether a field has two hexadecimal digits for each byte.
fn are_pairs(field: &[u8]) -> bool
    ensures { IsTrue result ↔ ArePairs field.now }
{
    for digit in field {
        if !is_digit(*digit) {
            return false;
        }
    }
    field.len() % 2 == 0
}
