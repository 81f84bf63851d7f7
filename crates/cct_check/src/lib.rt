//! The two checks that messages carry: the sum of their bytes, and a CRC of 16 bits.
#![tactic(auto)]

mod crc;
mod sum;

pub use crc::{crc16, crc16_step};
pub use sum::simple_sum;
