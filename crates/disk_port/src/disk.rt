//! A disk of one file.
ghost use Rattle.std.specs.Prelude.{◌≡◌, ℕ, ◌+◌, ◌^◌, ◌<◌, ◌≤◌, List, length, take, Option, option_map, IfOk, OnOk, OnErr, IfSome};
ghost use Rattle.outside.specs.Faults.{HasCause};
ghost use Rattle.disk_port.specs.Writes.{written, piece, Torn, TearsSeen};
ghost use Rattle.disk_port.specs.Crashes.{Follows, NoMore, LeavesSeen, Elapses};

/// A call of a disk that failed.
#[derive(Clone, Copy, Debug, PartialEq, Eq)]
pub struct DiskFailed;

/// The disk of one file. Until a sync has succeeded, a crash may leave any bytes in the ranges that were written since
/// the last one that did, and past the end that the file had then; it leaves no shorter file, and each other byte stays.
/// A write that failed may have left any bytes in its range.
pub trait Disk {
    // what a read gives; None of a disk that does not tell
    ghost seen: { Self → Option (List ℕ) };
    // the files that a crash now may leave; a disk that does not tell has none
    ghost image: { Self → List ℕ → Type 0 };
    // a count of moments, which never falls
    ghost moment: { Self → ℕ };
    // the files that a crash at some moment since that one might have left, in a call or between two
    ghost image_since: { Self → ℕ → List ℕ → Type 0 };
    // how many calls failed; a count that has come to the greatest u64 stays there
    ghost faults: { Self → ℕ };

    /// How many bytes the file has.
    fn len(&mut self) -> Result<u64, DiskFailed>
        ensures length { IfOk result (λ n. IfSome (seen self.old) (λ file. n ≡ length file)) }
        ensures seen { seen self.new ≡ seen self.old }
        ensures image { NoMore (image self.old) (image self.new) }
        ensures time { Elapses (moment self.old) (moment self.new) (image_since self.old) (image_since self.new) (image self.new) }
        ensures cause { HasCause (faults self.old) (faults self.new) result };

    /// Moves what the file has from the offset `at` on to the front of `into`, as many bytes as there are and as `into`
    /// has room for, and returns how many.
    fn read(&mut self, at: u64, into: &mut [u8]) -> Result<usize, DiskFailed>
        ensures fits { IfOk result (λ n. n ≤ length into.old) }
        ensures within { IfOk result (λ n. at + n < 2 ^ 64) }
        ensures count { IfOk result (λ n. IfSome (seen self.old) (λ file. n ≡ length (piece file at (length into.old)))) }
        ensures bytes { IfOk result (λ n. IfSome (seen self.old) (λ file. take n into.new ≡ piece file at (length into.old))) }
        ensures seen { seen self.new ≡ seen self.old }
        ensures image { NoMore (image self.old) (image self.new) }
        ensures time { Elapses (moment self.old) (moment self.new) (image_since self.old) (image_since self.new) (image self.new) }
        ensures cause { HasCause (faults self.old) (faults self.new) result };

    /// Writes the bytes at the offset `at`, over what is there and past the end; what lies between the end and `at` is
    /// zeros then.
    fn write_at(&mut self, at: u64, bytes: &[u8]) -> Result<(), DiskFailed>
        ensures written { OnOk result (seen self.new ≡ option_map (λ file. written file at bytes.now) (seen self.old)) }
        ensures torn { OnErr result (TearsSeen at (length bytes.now) (seen self.old) (seen self.new)) }
        ensures image { Follows (Torn at (length bytes.now)) (image self.old) (image self.new) }
        ensures time { Elapses (moment self.old) (moment self.new) (image_since self.old) (image_since self.new) (image self.new) }
        ensures cause { HasCause (faults self.old) (faults self.new) result };

    /// Brings what was written to rest: where this succeeds, a crash leaves what a read gives.
    fn sync(&mut self) -> Result<(), DiskFailed>
        ensures durable { OnOk result (LeavesSeen (seen self.old) (image self.new)) }
        ensures seen { seen self.new ≡ seen self.old }
        ensures image { NoMore (image self.old) (image self.new) }
        ensures time { Elapses (moment self.old) (moment self.new) (image_since self.old) (image_since self.new) (image self.new) }
        ensures cause { HasCause (faults self.old) (faults self.new) result };

    // this moment is one of those since an earlier one
    ghost counts_now: { (disk : Self) (from : ℕ) (file : List ℕ) → from ≤ moment disk → image disk file → image_since disk from file };
    // since this moment there was no other
    ghost only_now: { (disk : Self) (file : List ℕ) → image_since disk (moment disk) file → image disk file };
}
