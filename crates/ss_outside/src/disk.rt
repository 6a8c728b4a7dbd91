// Where the store lies.
ghost use Rattle.std.specs.Prelude.{◌+◌, ◌≤◌, length};
ghost use Rattle.ss_outside.specs.Crash.{KnowsNow};
ghost use Rattle.ss_outside.specs.Disk.{DiskView, OfContent, WhereTold};
ghost use Rattle.ss_outside.specs.Step.{Measures, ReadsAt, Step, Syncs, WritesAt};
ghost use Rattle.ss_outside.specs.Verdict.{verdict};

use crate::Failed;

/// The greatest length of a disk that is written, in bytes.
pub const LONGEST_DISK: u64 = 1 << 32;

/// Where the store lies: a file, or bytes in memory. What is written may be lost in a crash until a sync answers `Ok`.
pub trait Disk {
    /// Whether it tells what it holds and what a crash leaves, what it tells, and how many calls have failed, a number of 64
    /// bits that stands still at its greatest. A file tells nothing. Only of a disk that tells, a call says more than whether
    /// it failed.
    ghost seen: { Self → DiskView };

    /// The length of the content, in bytes.
    fn len(&mut self) -> Result<u64, Failed>
        ensures { Step (verdict result) (seen self.old) (seen self.new) (Measures result) };

    /// Fills the buffer with the content from `at` on. A byte past the end is 0. At `Failed` the buffer may hold anything.
    fn read_at(&mut self, at: u64, into: &mut [u8]) -> Result<(), Failed>
        ensures { Step (verdict result) (seen self.old) (seen self.new) (ReadsAt at into.new result) };

    /// Writes the bytes from `at` on, over what is there and past the end. Until a sync a crash may leave any bytes in
    /// their place. At `Failed` the content is what one of the images holds: read it again, or better open it again.
    fn write_at(&mut self, at: u64, bytes: &[u8]) -> Result<(), Failed>
        requires within { OfContent (seen self.old) (λ content. at ≤ length content) }
        requires end { at + length bytes.now ≤ LONGEST_DISK }
        ensures { Step (verdict result) (seen self.old) (seen self.new) (WritesAt at bytes.now result) };

    /// After it a crash leaves the content. `Failed` leaves everything pending, so a later `Ok` is needed.
    fn sync(&mut self) -> Result<(), Failed>
        ensures { Step (verdict result) (seen self.old) (seen self.new) (Syncs result) };

    /// The content is always one of the images, and the clock tells of now what a crash now may leave.
    ghost knows_now: { (disk : Self) → WhereTold (seen disk) KnowsNow };
}
