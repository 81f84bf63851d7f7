//! The disk of a journal, opened once more beside the host.
ghost use Rattle.std.specs.Prelude.{◌≡◌, ◌≢◌, [], IfSome, None, ⊤};
ghost use Rattle.cct_edge.specs.Faults.{Caused};
ghost use Rattle.cct_live_service.specs.Hears.{HearsMore};

use crate::outside::Outside;
use cct_disk::Disk;

/// A program around a service that may open the disk of its journal once more.
pub trait Beside<D: Disk>: Outside {
    /// Another disk that gives the same bytes as this one does now, to be read alone; none where it
    /// can't be opened, which counts as a miss.
    fn beside(&mut self, disk: &D) -> Option<D>
        ensures same { IfSome result (λ other. D.seen other ≡ D.seen disk.now) }
        ensures new { IfSome result (λ other. D.faults other ≡ 0) }
        ensures missed { Caused (Self.misses self.old) (Self.misses self.new) (result ≡ None) }
        ensures heard { HearsMore Self.heard self.old self.new [] };

    /// A call of a disk that was opened so failed, which counts as a miss.
    fn failed(&mut self, disk: D)
        requires failed { D.faults disk ≢ 0 }
        ensures missed { Caused (Self.misses self.old) (Self.misses self.new) ⊤ }
        ensures heard { HearsMore Self.heard self.old self.new [] };
}
