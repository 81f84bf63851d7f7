//! The two checks, over any bytes.
ghost use Rattle.std.specs.Prelude.{◌≡◌, ◌%◌, sum};
ghost use Rattle.cct_check.specs.Check.{crc};

use cct_check::{crc16, simple_sum};

/// The sum of bytes modulo 256.
#[unsafe(no_mangle)]
pub extern "C" fn lh_raw_simple_sum(bytes: &[u8]) -> u8
    ensures { result ≡ sum bytes.now % 256 }
{
    simple_sum(bytes)
}

/// The CRC of bytes: CRC-16/XMODEM.
#[unsafe(no_mangle)]
pub extern "C" fn lh_raw_crc16(bytes: &[u8]) -> u16
    ensures { result ≡ crc bytes.now }
{
    crc16(bytes)
}
