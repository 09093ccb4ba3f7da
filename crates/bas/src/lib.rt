// BAS words: the word of a code, the order of its bits on the line, and the reading of a word that
// came (document 01, 'BAS words').
#![tactic(auto)]

ghost use Rattle.std.specs.Prelude.{◌≡◌};
ghost use Rattle.bits.specs.Bits.{low_bits, number};
ghost use Rattle.bas.specs.Words.{check_of, word_of, line_order};
ghost use Rattle.bas.specs.Reading.{reading_of};
ghost use Rattle.bas.specs.Flips.{flips_at};

// For each remainder the bits to flip, or 65535 where no flip of at most two bits mends it
// (DECISIONS G8). The entries are numbers, for as Options they would take twice the store, and a
// table is laid out anew where it is read (DECISIONS F36): `flips` gives the Option.
const FLIPS: [u16; 256] = [
    0, 1, 2, 3, 4, 5, 6, 65535, 8, 9, 10, 65535, 12, 65535, 65535, 16448, 16, 17, 18, 2080, 20,
    65535, 65535, 65535, 24, 65535, 65535, 8448, 65535, 65535, 32896, 4608, 32, 33, 34, 2064, 36,
    1280, 4160, 65535, 40, 20480, 65535, 65535, 65535, 65535, 65535, 65535, 48, 2050, 2049, 2048,
    65535, 65535, 16896, 2052, 65535, 576, 65535, 2056, 65535, 65535, 9216, 65535, 64, 65, 66,
    65535, 68, 65535, 4128, 16392, 72, 33024, 2560, 16388, 8320, 16386, 16385, 16384, 80, 65535,
    40960, 65535, 65535, 6144, 65535, 384, 65535, 544, 65535, 65535, 65535, 65535, 65535, 16400,
    96, 65535, 4100, 65535, 4098, 65535, 4096, 4097, 65535, 528, 65535, 65535, 33792, 65535, 4104,
    16416, 65535, 520, 1152, 2112, 65535, 65535, 4112, 65535, 513, 512, 65535, 514, 18432, 516,
    65535, 65535, 128, 129, 130, 24576, 132, 65535, 65535, 65535, 136, 65535, 65535, 1536, 8256,
    65535, 32784, 65535, 144, 65535, 65535, 65535, 5120, 65535, 32776, 320, 16640, 65535, 32772,
    65535, 32770, 65535, 32768, 32769, 160, 65535, 65535, 65535, 65535, 65535, 65535, 65535, 65535,
    65535, 12288, 65535, 65535, 34816, 768, 65535, 65535, 4352, 1088, 2176, 65535, 8704, 65535,
    65535, 65535, 65535, 65535, 65535, 65535, 17408, 32800, 65535, 192, 3072, 65535, 65535, 8200,
    65535, 65535, 272, 8196, 65535, 65535, 65535, 8192, 8193, 8194, 16512, 65535, 49152, 1056, 260,
    65535, 258, 257, 256, 65535, 65535, 65535, 65535, 8208, 65535, 32832, 264, 65535, 65535, 1040,
    65535, 2304, 65535, 4224, 33280, 65535, 65535, 65535, 65535, 8224, 65535, 65535, 65535, 1026,
    65535, 1024, 1025, 65535, 65535, 1028, 288, 36864, 640, 1032, 65535, 65535, 65535, 65535,
    10240,
];

// The check bits of a code, p0 highest. X^16 divided by the generator is X^8 + X^7 + X^5 + X^2 + 1
// and a rest; so the code times X^8, divided by it, is the code added up with itself 1, 3 and 6
// places lower. Below X^8 the code times X^8 has nothing, and hence what the quotient times the
// generator has there is the remainder: times X + 1, X^2, X^4 and X^7 + X^6, which is X + 1 again,
// six places up.
pub fn check_octet(code: u8) -> u8
    ensures { result ≡ check_of code }
{
    let quotient = code ^ (code >> 1) ^ (code >> 3) ^ (code >> 6);
    let pair = quotient ^ (quotient << 1);
    pair ^ (quotient << 2) ^ (quotient << 4) ^ (pair << 6)
}

// The word of a code: its eight bits, and then its check bits.
#[tactic(auto, using(crate::proofs::WordLaws::word_of_is))]
pub fn word_of(code: u8) -> u16
    ensures { result ≡ word_of code }
{
    u16::from_be_bytes([code, check_octet(code)])
}

// A word's sixteen bits as a block carries them, even frame first; and back, for the order is its
// own inverse. b1 and b3, two places apart, change places, and p0 and p2; so do the neighbours b4
// and b5, and p3 and p4. Where two bits differ, both are turned.
#[tactic(auto, using(crate::proofs::OrderLaws::order_is))]
pub fn line_order(word: u16) -> u16
    ensures { result ≡ number (line_order (low_bits 16 word)) }
{
    let apart = (word ^ (word >> 2)) & 0b0001_0000_0010_0000;
    let beside = (word ^ (word >> 1)) & 0b0000_0100_0000_1000;
    word ^ apart ^ (apart << 2) ^ beside ^ (beside << 1)
}

// The bits to flip at a remainder, where a flip of at most two bits mends it.
fn flips(remainder: u8) -> Option<u16>
    ensures { result ≡ flips_at remainder }
{
    let flip = FLIPS[remainder as usize];
    if flip == 65535 {
        return None;
    }
    Some(flip)
}

// The code of a word that came, in its natural order, or None for a word that is unreadable. Most
// words come unharmed, and the table is read only for the others (DECISIONS F36).
pub fn read_word(word: u16) -> Option<u8>
    ensures { result ≡ reading_of word }
{
    let [code, check] = word.to_be_bytes();
    let remainder = check_octet(code) ^ check;
    if remainder == 0 {
        return Some(code);
    }
    let flip = flips(remainder)?;
    let [high, _] = flip.to_be_bytes();
    Some(code ^ high)
}
