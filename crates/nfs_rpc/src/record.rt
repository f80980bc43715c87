//! The header of a fragment (RFC 5531, section 11).
ghost use Rattle.std.specs.Prelude.{◌≡◌, ◌^◌, ◌<◌, true};
ghost use Rattle.std.specs.Int.{w32, to_be_bytes};
ghost use Rattle.nfs_rpc.specs.Records.{mark};

/// How many bytes the header of a fragment has.
pub const HEADER_BYTES: usize = 4;

/// The header of a record of `len` bytes that goes out as one fragment: the highest bit, which
/// says that the fragment is the last of its record, and the length.
#[inline(always)]
pub fn frame_record(len: u32) -> [u8; 4]
    requires { len < 2 ^ 31 }
    ensures { result ≡ to_be_bytes w32 (mark true len) }
{
    (LAST + len).to_be_bytes()
}

/// The bit of a header that says that its fragment is the last of its record.
const LAST: u32 = 1 << 31;

// What a header says: whether its fragment is the last, and the fragment's length.
pub(crate) fn read_header(header: [u8; 4]) -> (bool, usize)
    ensures mark { header ≡ to_be_bytes w32 (mark result.0 result.1) }
    ensures below { result.1 < 2 ^ 31 }
{
    let word = u32::from_be_bytes(header);
    if word >= LAST {
        (true, (word - LAST) as usize)
    } else {
        (false, word as usize)
    }
}
