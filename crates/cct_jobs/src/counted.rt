//! What an acceptor counted.
ghost use Rattle.std.specs.Prelude.{◌<◌, ◌^◌};

/// How many coins or bills an acceptor says that it accepted, in the three bytes of its accept
/// counter.
#[derive(Clone, Copy, PartialEq, Eq)]
pub struct Counted {
    pub accepts: u32,
    pub ghost fits: { accepts < 2 ^ 24 },
}
