//! Numbers of three bytes, low byte first.
ghost use Rattle.std.specs.Prelude.{◌≡◌};
ghost use Rattle.cct_model_wire.specs.Request.{from_three, three_bytes};

/// The three low bytes of a number.
pub(crate) fn three_bytes(number: u32) -> [u8; 3]
    ensures { result ≡ three_bytes number }
{
    let [low, middle, high, _] = number.to_le_bytes();
    [low, middle, high]
}

/// The number of three bytes.
pub(crate) fn from_three(low: u8, middle: u8, high: u8) -> u32
    ensures { result ≡ from_three low middle high }
{
    u32::from_le_bytes([low, middle, high, 0])
}
