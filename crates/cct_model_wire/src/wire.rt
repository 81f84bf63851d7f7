//! Bytes on the wire.
ghost use Rattle.std.specs.Prelude.{◌≡◌, ◌+◌, ◌<◌, ◌≤◌, List, ℕ, [], ◌∷◌, ◌++◌, length};

use arrayvec::ArrayVec;
use std::marker::Model;

/// The address of the host (ccTalk Generic Specification 4, part 1).
pub const HOST: u8 = 1;

/// The address of all devices (ccTalk Generic Specification 4, part 1).
pub const BROADCAST: u8 = 0;

/// The most bytes of a message: five, and up to 255 data bytes (ccTalk Generic Specification 4,
/// part 1).
pub const MOST_SENT: usize = 260;

/// The most bytes that the host hears in one exchange: an echo and what follows it.
pub const MOST_HEARD: usize = 520;

/// The most bytes of a text by which a device names itself.
pub const MOST_NAME: usize = 24;

/// Which check a device's messages carry: one byte that makes their sum 0, or a CRC of 16 bits
/// (ccTalk Generic Specification 4, part 1).
#[derive(Clone, Copy, Default, PartialEq, Eq)]
pub enum CheckKind {
    #[default]
    Simple,
    Crc,
}

/// A run of bytes, at most `MOST`.
#[derive(Clone, Default, Drop, PartialEq, Eq)]
pub struct Bytes<const MOST: usize> {
    bytes: ArrayVec<u8, MOST>,
}

/// A message as the host sends it.
pub type Sent = Bytes<MOST_SENT>;

/// Any run of bytes between two gaps of the wire, at most as long as an echo and what follows it.
pub type Piece = Bytes<MOST_HEARD>;

/// A text by which a device names itself.
pub type Name = Bytes<MOST_NAME>;

impl<const MOST: usize> Model for Bytes<MOST> {
    ghost use Rattle.std.specs.Prelude.{List, ℕ};

    ghost Value = { List ℕ };

    ghost view = { λ p. p.bytes.items };

    ghost inverse = { λ xs. record { bytes = record { items = xs } } };
}

impl<const MOST: usize> Bytes<MOST> {
    ghost use Rattle.std.specs.Borrow.{sem};
    ghost use Rattle.cct_model_wire.specs.Lending.{LendsBytes};

    /// No byte.
    pub fn new() -> Self
        ensures { result ≡ [] }
    {
        Bytes {
            bytes: ArrayVec::new(),
        }
    }

    /// Adds a byte at the end.
    pub fn push(&mut self, byte: u8)
        requires { length self.old < MOST }
        ensures { self.new ≡ self.old ++ byte ∷ [] }
    {
        self.bytes.push(byte);
    }

    /// Adds bytes at the end.
    pub fn extend_from_slice(&mut self, bytes: &[u8])
        requires { length self.old + length bytes.now ≤ MOST }
        ensures { self.new ≡ self.old ++ bytes.now }
    {
        self.bytes.try_extend_from_slice(bytes).unwrap();
    }

    /// Removes every byte.
    pub fn clear(&mut self)
        ensures { self.new ≡ [] }
    {
        self.bytes.clear();
    }

    /// The list of the bytes itself, for a callee that writes into it.
    pub fn as_array_mut(&mut self) -> &mut ArrayVec<u8, MOST>
        // A run of bytes whose list was lent ends as that list is last.
        ensures* lends { sem 𝓛 (LendsBytes MOST.row self.entry result) }
        ensures value { result.now.items ≡ self.old }
    {
        &mut self.bytes
    }

    /// The bytes in their order.
    pub fn as_slice(&self) -> &[u8]
        ensures value { result.now ≡ self.now }
        ensures fits { length result.now ≤ MOST }
    {
        self.bytes.as_slice()
    }
}
