//! Words that were nearly written.
ghost use Rattle.std.specs.Prelude.{◌≤◌, length};

// How many bytes in a row may be others in a word that was nearly written.
const MAX_DISTANCE: usize = 2;

/// Of some words the one that this word is most like: at most two bytes in a row are others, too many or
/// missing. The case of letters makes no difference, nor does `-` for `_`.
pub(crate) fn nearest(word: &[u8], known: &[&'static [u8]]) -> Option<&'static [u8]> {
    let mut found = None;
    let mut least = MAX_DISTANCE + 1;
    for candidate in known {
        let distance = distance(word, candidate);
        if distance < least && distance < candidate.len() {
            least = distance;
            found = Some(*candidate);
        }
    }
    found
}

// How many bytes of the longer word lie between those that both begin and end with.
fn distance(one: &[u8], two: &[u8]) -> usize {
    let front = common_front(one, two);
    let (one, two) = (&one[front..], &two[front..]);
    one.len()
        .max(two.len())
        .saturating_sub(common_back(one, two))
}

// How many bytes both words begin with.
fn common_front(one: &[u8], two: &[u8]) -> usize
    ensures one { result ≤ length one.now }
    ensures two { result ≤ length two.now }
{
    let most = one.len().min(two.len());
    for index in 0..most {
        if !is_same(one[index], two[index]) {
            return index;
        }
    }
    most
}

// How many bytes both words end with.
fn common_back(one: &[u8], two: &[u8]) -> usize {
    let most = one.len().min(two.len());
    for index in 0..most {
        if !is_same(one[one.len() - 1 - index], two[two.len() - 1 - index]) {
            return index;
        }
    }
    most
}

fn is_same(one: u8, two: u8) -> bool {
    plain(one) == plain(two)
}

// A byte in lower case, with `_` for `-`.
fn plain(byte: u8) -> u8 {
    if byte == b'-' {
        b'_'
    } else {
        byte.to_ascii_lowercase()
    }
}
