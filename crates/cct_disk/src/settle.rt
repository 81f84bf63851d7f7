//! A disk whose calls its caller makes.
ghost use Rattle.std.specs.Prelude.{◌≡◌, ℕ};
ghost use Rattle.cct_disk.specs.Settle.{Settles};

use crate::Disk;

/// A disk that notes the calls made of it: its caller makes them later, elsewhere, in the same
/// order.
///
/// What a read gives and what a power cut may leave is as if each call was made when it was noted.
pub trait Settle: Disk {
    /// How many calls are noted.
    ghost noted: { Self → ℕ };

    /// The caller made all calls that were noted, and none failed: from here on none is noted.
    ///
    /// The disk forgets what a power cut might have left before, and its clock may begin anew.
    fn settle(&mut self)
        ensures none { noted self.new ≡ 0 }
        ensures settles { Settles Self.size Self.honest Self.seen Self.may_leave Self.cuts Self.faults self.old self.new };
}
