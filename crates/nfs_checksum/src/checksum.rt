//! CRC-32C.
ghost use Rattle.std.specs.Prelude.{◌≡◌, ◌+◌, ◌<◌, bit_xor};
ghost use Rattle.nfs_checksum.specs.Checksums.{after_blocks, after_bytes, after_eight, after_eights, crc32c as checksum_of};

use crate::tables::REMAINDERS;

/// The CRC-32C of some bytes (RFC 3720, section 12.1).
pub fn crc32c(bytes: &[u8]) -> u32
    ensures { result ≡ checksum_of bytes.now }
{
    let (blocks, rest) = bytes.as_chunks::<8>();
    take_bytes(take_blocks(u32::MAX, blocks), rest) ^ u32::MAX
}

// The remainder after blocks of eight bytes.
fn take_blocks(crc: u32, blocks: &[[u8; 8]]) -> u32
    ensures { result ≡ after_blocks crc blocks.now }
{
    let mut crc = crc;
    for block in blocks {
        crc = take_block(crc, block);
    }
    crc
}

// The remainder after eight bytes: each is looked up by how many follow it, with the bytes of the remainder before in the first
// four.
#[inline(always)]
fn take_block(crc: u32, block: &[u8; 8]) -> u32
    ensures { result ≡ after_bytes crc block.now }
{
    let before = crc.to_le_bytes();
    remainder_of(0, block[7])
        ^ (remainder_of(1, block[6])
            ^ (remainder_of(2, block[5])
                ^ (remainder_of(3, block[4])
                    ^ (remainder_of(4, before[3] ^ block[3])
                        ^ (remainder_of(5, before[2] ^ block[2])
                            ^ (remainder_of(6, before[1] ^ block[1])
                                ^ remainder_of(7, before[0] ^ block[0])))))))
}

// The remainder after bytes.
fn take_bytes(crc: u32, bytes: &[u8]) -> u32
    ensures { result ≡ after_bytes crc bytes.now }
{
    let mut crc = crc;
    for byte in bytes {
        crc = take_byte(crc, *byte);
    }
    crc
}

// The remainder after one byte more.
#[inline(always)]
fn take_byte(crc: u32, byte: u8) -> u32
    ensures { result ≡ after_eight (bit_xor crc byte) }
{
    (crc / 256) ^ remainder_of(0, (crc % 256) as u8 ^ byte)
}

// The remainder of a byte with so many zeros after it.
#[inline(always)]
fn remainder_of(zeros: usize, byte: u8) -> u32
    requires { zeros < 8 }
    ensures { result ≡ after_eights (zeros + 1) byte }
{
    REMAINDERS[zeros][byte as usize]
}
