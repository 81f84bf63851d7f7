//! Bytes in slices.
ghost use Rattle.std.specs.Prelude.{◌≡◌, ◌==◌, position};

/// Where a byte first stands.
pub(crate) fn place_of(bytes: &[u8], wanted: u8) -> Option<usize>
    ensures { result ≡ position (λ byte. byte == wanted) bytes.now }
{
    bytes.iter().position(|byte| *byte == wanted)
}

/// Where the first line feed stands. In a function of its own the search is a short loop.
#[inline(never)]
pub(crate) fn line_feed_in(bytes: &[u8]) -> Option<usize>
    ensures { result ≡ position (λ byte. byte == 10) bytes.now }
{
    place_of(bytes, b'\n')
}
