//! Digits, written straight into the room for them.
ghost use Rattle.std.specs.Prelude.{◌≡◌, ◌*◌, ◌<◌, length};
ghost use Rattle.std.specs.Fmt.{decimal};
ghost use Rattle.hex.specs.Hex.{encode_lower};

/// The two hexadecimal digits of each byte, byte after byte.
static HEX_PAIRS: [u8; 512] =
    *b"000102030405060708090a0b0c0d0e0f101112131415161718191a1b1c1d1e1f202122232425262728292a2b2c2d2e2f303132333435363738393a3b3c3d3e3f404142434445464748494a4b4c4d4e4f505152535455565758595a5b5c5d5e5f606162636465666768696a6b6c6d6e6f707172737475767778797a7b7c7d7e7f808182838485868788898a8b8c8d8e8f909192939495969798999a9b9c9d9e9fa0a1a2a3a4a5a6a7a8a9aaabacadaeafb0b1b2b3b4b5b6b7b8b9babbbcbdbebfc0c1c2c3c4c5c6c7c8c9cacbcccdcecfd0d1d2d3d4d5d6d7d8d9dadbdcdddedfe0e1e2e3e4e5e6e7e8e9eaebecedeeeff0f1f2f3f4f5f6f7f8f9fafbfcfdfeff";

/// How many digits a number has in decimal. They are counted four at a time.
pub(crate) fn digit_count(number: u64) -> usize
    ensures { result ≡ length (decimal number) }
{
    let mut count = 0;
    let mut front = number;
    while front >= 10_000 {
        front /= 10_000;
        count += 4;
    }
    count + short_digit_count(front)
}

/// How many digits a number below 10,000 has in decimal.
#[inline(always)]
#[tactic(auto, using(crate::proofs::WrittenDigits::one_digit_length, crate::proofs::WrittenDigits::two_digits_length, crate::proofs::WrittenDigits::three_digits_length, crate::proofs::WrittenDigits::four_digits_length))]
fn short_digit_count(number: u64) -> usize
    requires { number < 10000 }
    ensures { result ≡ length (decimal number) }
{
    if number < 10 {
        1
    } else if number < 100 {
        2
    } else if number < 1_000 {
        3
    } else {
        4
    }
}

/// Fills the room with the bytes in hexadecimal, lower case.
pub(crate) fn write_hex(bytes: &[u8], room: &mut [u8])
    requires { length room.old ≡ 2 * length bytes.now }
    ensures { room.new ≡ encode_lower bytes.now }
{
    for at in 0..bytes.len() {
        let pair = 2 * bytes[at] as usize;
        let (high, low) = (HEX_PAIRS[pair], HEX_PAIRS[pair + 1]);
        room[2 * at] = high;
        room[2 * at + 1] = low;
    }
}
