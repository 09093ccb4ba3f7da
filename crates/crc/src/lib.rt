// The CRC-4 of a block (document 01, 'CRC-4').
#![tactic(auto)]

ghost use Rattle.std.specs.Prelude.{◌≡◌, [], ◌∷◌};
ghost use Rattle.bits.specs.Bits.{low_bits, number};
ghost use Rattle.bits.specs.Remainder.{continued, remainder};
ghost use Rattle.crc.specs.Crc.{crc4_generator, crc4_from, summed, block_crc_of};

// The CRC-4 of four bits, the low ones of a number: times X^4 they are themselves times X + 1, and X^4 + X + 1 is taken away where the
// highest of them has come up to X^4.
fn crc4_half(half: u8) -> u8
    ensures { result ≡ number (remainder crc4_generator (low_bits 4 half)) }
{
    let low = half % 16;
    low ^ (low * 2) ^ (low / 8 * 19)
}

// A CRC-4, of which the low four bits count, continued over one octet.
fn crc4_octet(before: u8, octet: u8) -> u8
    ensures { result ≡ crc4_from before (octet ∷ []) }
{
    let between = crc4_half(before ^ (octet / 16));
    crc4_half(between ^ octet)
}

// An octet at its place in a block, its C bit taken as 0.
fn summed_octet(at: usize, octet: u8) -> u8
    ensures { result ≡ summed at octet }
{
    if (84..88).contains(&at) {
        octet / 2 * 2
    } else {
        octet
    }
}

// A sum is 64 bits that leave the remainder of all octets so far; this is the sum with eight more. They raise it by X^64. Divided by
// X^4 + X + 1, X^15 leaves 1, and so does X^60: hence its highest four bits come down by 60 places, and all go up by only four.
fn sum_with(sum: usize, eight: usize) -> usize
    ensures { remainder crc4_generator (low_bits 64 result) ≡ continued crc4_generator (remainder crc4_generator (low_bits 64 sum)) (low_bits 64 eight) }
{
    ((sum ^ (sum >> 60)) << 4) ^ eight
}

// The remainder that a sum leaves: what stands higher comes down by 60, by 30 and by 15 places, and fifteen bits are left.
fn crc4_of_sum(sum: usize) -> u8
    ensures { result ≡ number (remainder crc4_generator (low_bits 64 sum)) }
{
    let sixty = sum ^ (sum >> 60);
    let thirty = sixty ^ (sixty >> 30);
    let fifteen = (thirty ^ (thirty >> 15)) % 32768;
    let [first, second] = (fifteen as u16).to_be_bytes();
    crc4_octet(crc4_octet(0, first), second)
}

// The CRC-4 of a block of 160 octets. X^480 leaves 1 too: so octets that are sixty apart are added up, the first forty of the block, the
// sixty after them and the last sixty, and only these sixty go into the sum. The C bits are in the eight octets from 84 on.
fn whole_crc(block: &[u8; 160]) -> u8
    ensures { result ≡ block_crc_of block.now }
{
    let eight = |at: usize| bits::eight_within(block, at);
    let half = (eight(40) ^ eight(100)) >> 32;
    let one = sum_with(half, eight(44) ^ eight(104));
    let two = sum_with(one, eight(52) ^ eight(112));
    let three = sum_with(two, eight(0) ^ eight(60) ^ eight(120));
    let four = sum_with(three, eight(8) ^ eight(68) ^ eight(128));
    let five = sum_with(four, eight(16) ^ eight(76) ^ eight(136));
    let c_bits_out = eight(84) & 0xFEFE_FEFE_FFFF_FFFF;
    let six = sum_with(five, eight(24) ^ c_bits_out ^ eight(144));
    let seven = sum_with(six, eight(32) ^ eight(92) ^ eight(152));
    crc4_of_sum(seven)
}

// The CRC-4 of a block of any length, octet by octet.
fn stepped_crc(block: &[u8]) -> u8
    ensures { result ≡ block_crc_of block.now }
{
    let mut sum = 0;
    for (at, octet) in block.iter().enumerate() {
        sum = crc4_octet(sum, summed_octet(at, *octet));
    }
    sum
}

// The CRC-4 of a block, C1 to C4 taken as 0. Blocks have 160 octets, so only these need the quick way; the contract speaks of every length,
// and the others go the plain way.
pub fn block_crc(block: &[u8]) -> u8
    ensures { result ≡ block_crc_of block.now }
{
    match block.as_array() {
        Some(whole) => whole_crc(whole),
        None => stepped_crc(block),
    }
}
