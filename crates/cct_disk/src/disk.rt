// A disk of a fixed length, with what a read gives and what a power cut may leave.
ghost use Rattle.std.specs.Prelude.{◌≡◌, ℕ, ◌+◌, ◌≤◌, Bool, true, Option, Some, List, OnOk, OnErr};
ghost use Rattle.std.specs.Prelude.{length, take, drop};
ghost use Rattle.cct_disk.specs.Disk.{put_at, SameOutside, Follows, IsWithin, Only, Elapses};
ghost use Rattle.cct_disk.specs.Disk.{GoesOn, Outlasts, IsCutBy, CountsCut, IsReady, Spends};
ghost use Rattle.cct_edge.specs.Faults.{HasCause};

use cct_edge::Failed;

/// A disk of a fixed number of bytes, whose power may be cut between any two calls.
///
/// Of a disk that is honest and says what a read gives, the clauses say all that may be relied on:
/// bytes that were synced stay. `docs/JOURNAL.md` says what is trusted of it. A failed call may
/// succeed when it is made again.
pub trait Disk {
    /// How many bytes it has.
    ghost size: { Self → ℕ };

    /// Whether it keeps what was synced, and gives what was written.
    ghost honest: { Self → Bool };

    /// The bytes that a read gives, where the object shows them.
    ghost seen: { Self → Option (List ℕ) };

    /// The images that a power cut may leave now.
    ghost may_leave: { Self → List ℕ → Type 0 };

    /// The clock: a number that never falls.
    ghost moment: { Self → ℕ };

    /// The images that a power cut might have left at some moment from that reading of the clock
    /// on, during a call or between two.
    ghost left_since: { Self → ℕ → List ℕ → Type 0 };

    /// How often a call has failed: a count that never falls, and may stand still at 2^64 - 1.
    ghost faults: { Self → ℕ };

    /// No call has failed, and since the disk was ready it took at most so many writes and syncs,
    /// of at most so many bytes in all: so a ready disk reads, and then takes 12 of them, of 1,280
    /// bytes. A disk whose calls may fail at any time is never so.
    ghost spent: { Self → ℕ → ℕ → Type 0 };

    /// How often the power was cut: a count that each cut raises by one, and that stands still at
    /// 2^64 - 1.
    ghost cuts: { Self → ℕ };

    /// What lies below the calls that it noted: the bytes that its caller's part had before them.
    /// There are none where it makes its calls itself.
    ghost below: { Self → List ℕ };

    /// What one power cut does by its choice to the object, before and after it, as far as the
    /// object says: so a caller can say that it came from just one, and by which choice where that
    /// is said.
    ghost cut_to: { Self → ℕ → Self → Type 0 };

    /// How many bytes it has.
    fn len(&self) -> u64
        ensures { result ≡ size self.now };

    /// Fills `room` with the bytes from `at` on. A call that fails may have filled it in part.
    fn read(&mut self, at: u64, room: &mut [u8]) -> Result<(), Failed>
        requires { at + length room.old ≤ size self.old }
        ensures gives { OnOk result ((s : List ℕ) → seen self.old ≡ Some s →
            room.new ≡ take (length room.new) (drop at s)) }
        ensures room { length room.new ≡ length room.old }
        ensures seen { seen self.new ≡ seen self.old }
        ensures images { honest self.old ≡ true →
            IsWithin (may_leave self.old) (may_leave self.new) }

        // what it leaves alone, and why it fails
        ensures goes_on { GoesOn size honest seen cuts self.old self.new }
        ensures time { Elapses moment left_since may_leave self.old self.new }
        ensures ready { IsReady spent self.old → IsReady spent self.new }
        ensures cause { HasCause (faults self.old) (faults self.new) result };

    /// Puts `bytes` in place of those from `at` on. Until a sync or a cut a power cut may leave any
    /// bytes there, also where the call failed; a read after a call that failed may give any there,
    /// too.
    fn write(&mut self, at: u64, bytes: &[u8]) -> Result<(), Failed>
        requires { at + length bytes.now ≤ size self.old }
        ensures written { OnOk result (honest self.old ≡ true → (s : List ℕ) → seen self.old ≡ Some s →
            seen self.new ≡ Some (put_at s at bytes.now)) }
        // A write that failed may have changed what a read gives, but only in its own range.
        ensures torn { OnErr result (honest self.old ≡ true → (s : List ℕ) → seen self.old ≡ Some s →
            (c : List ℕ) × (seen self.new ≡ Some c) × SameOutside at (length bytes.now) s c) }
        // Until a sync a power cut may leave anything in that range, and leaves every other byte as
        // it might have left it before.
        ensures images { honest self.old ≡ true →
            Follows (SameOutside at (length bytes.now)) (may_leave self.old) (may_leave self.new) }

        // what it leaves alone, and why it fails
        ensures goes_on { GoesOn size honest seen cuts self.old self.new }
        ensures time { Elapses moment left_since may_leave self.old self.new }
        ensures below { below self.new ≡ below self.old }
        ensures spends { Spends spent (length bytes.now) self.old self.new }
        ensures cause { HasCause (faults self.old) (faults self.new) result };

    /// Keeps what was written: from here on a power cut leaves what a read gives. A call that fails
    /// may have kept some of it.
    fn sync(&mut self) -> Result<(), Failed>
        // There is exactly one image then.
        ensures kept { OnOk result (honest self.old ≡ true → (s : List ℕ) → seen self.new ≡ Some s →
            Only s (may_leave self.new)) }
        ensures seen { honest self.old ≡ true → seen self.new ≡ seen self.old }
        ensures images { honest self.old ≡ true →
            IsWithin (may_leave self.old) (may_leave self.new) }

        // what it leaves alone, and why it fails
        ensures goes_on { GoesOn size honest seen cuts self.old self.new }
        ensures time { Elapses moment left_since may_leave self.old self.new }
        ensures below { below self.new ≡ below self.old }
        ensures spends { Spends spent 0 self.old self.new }
        ensures cause { HasCause (faults self.old) (faults self.new) result };

    /// Cuts the power: from here on a read gives one of the images that this might leave, which one
    /// by `choice`, and a further power cut leaves just that. A call that fails cuts nothing.
    fn power_cut(&mut self, choice: u64) -> Result<(), Failed>
        ensures cut { OnOk result (IsCutBy honest seen may_leave cut_to choice self.old self.new) }
        ensures seen { OnErr result (honest self.old ≡ true → seen self.new ≡ seen self.old) }
        ensures images { honest self.old ≡ true →
            IsWithin (may_leave self.old) (may_leave self.new) }
        ensures counted { CountsCut (cuts self.old) (cuts self.new) result }

        // what it leaves alone, and why it fails
        ensures outlasts { Outlasts size honest seen cuts self.old self.new }
        ensures time { Elapses moment left_since may_leave self.old self.new }
        ensures cause { HasCause (faults self.old) (faults self.new) result };

    /// What a read gives is as long as the disk.
    ghost fits: { (disk : Self) (s : List ℕ) → seen disk ≡ Some s → length s ≡ size disk };

    /// What a read gives is one of the images.
    ghost is_image: { (disk : Self) (s : List ℕ) → honest disk ≡ true → seen disk ≡ Some s → may_leave disk s };

    /// No call has failed of a disk that promises something of the next ones.
    ghost unfailed: { (disk : Self) (calls bytes : ℕ) → spent disk calls bytes → faults disk ≡ 0 };

    /// This moment is one of those since an earlier one.
    ghost counts_now: { (disk : Self) (t : ℕ) (c : List ℕ) → t ≤ moment disk → may_leave disk c → left_since disk t c };

    /// Since this moment there is no other.
    ghost only_now: { (disk : Self) (c : List ℕ) → left_since disk (moment disk) c → may_leave disk c };
}
