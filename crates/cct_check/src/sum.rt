//! The sum of bytes.
ghost use Rattle.std.specs.Prelude.{◌≡◌, ◌%◌, sum};

/// The sum of bytes modulo 256. A message under the simple check has the sum 0.
pub fn simple_sum(bytes: &[u8]) -> u8
    ensures { result ≡ sum bytes.now % 256 }
{
    let mut total: u8 = 0;
    for byte in bytes {
        total = total.wrapping_add(*byte);
    }
    total
}
