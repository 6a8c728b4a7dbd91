// How often a disk was called.
ghost use Rattle.std.specs.Prelude.{◌≡◌, ◌+◌, ◌*◌, ◌≤◌};
ghost use Rattle.bench_calls.specs.Settlings.{closings, settlings, slot_writes, slots_settled};

/// Calls of a disk, and the bytes of the writes. Each number stands still at its greatest.
#[derive(Clone, Copy)]
pub struct Calls {
    /// Calls of `len` and `read_at`.
    pub reads: u64,
    pub writes: u64,
    pub syncs: u64,
    pub bytes: u64,
}

fn sum(a: u64, b: u64) -> u64 {
    a.saturating_add(b)
}

impl Calls {
    /// None yet.
    pub fn none() -> Calls {
        Calls {
            reads: 0,
            writes: 0,
            syncs: 0,
            bytes: 0,
        }
    }

    /// How many calls there were.
    pub fn number(&self) -> u64 {
        sum(sum(self.reads, self.writes), self.syncs)
    }

    /// Whether all four numbers are those of the other.
    pub fn agree(&self, other: &Calls) -> bool {
        let own = (self.reads, self.writes, self.syncs, self.bytes);
        own == (other.reads, other.writes, other.syncs, other.bytes)
    }

    /// Those of opening and settling an empty file, by the steps in docs/FORMAT.md: the length four times and the first bytes twice are
    /// read; a 0, the magic, the zeros after it in pieces and the gate are written, with three syncs.
    pub fn of_birth() -> Calls {
        Calls {
            reads: 6,
            writes: 12,
            syncs: 3,
            bytes: 36_865,
        }
    }

    /// Those of so many commits of so many puts each on an empty journal, by the steps in docs/FORMAT.md: the entry after
    /// its gate, with the closed gate behind it where there is one, and the gate, each with a sync. Where all 64 entries are
    /// in use, first their slots, each once and neighbours by one write, and the first gate, each with a sync.
    pub fn of_commits(commits: u32, puts: u32) -> Calls
        requires few { puts ≤ 4 }
        ensures reads { result.reads ≡ 0 }
        ensures writes { result.writes ≡ 2 * commits + (slot_writes puts + 1) * settlings commits }
        ensures syncs { result.syncs ≡ 2 * commits + 2 * settlings commits }
        ensures bytes { result.bytes ≡ 544 * commits + closings commits + (128 * slots_settled puts + 1) * settlings commits }
    {
        let settlings = u64::from(commits.saturating_sub(1) / 64);
        let commits = u64::from(commits);
        let slots = 63 + u64::from(puts);
        Calls {
            reads: 0,
            writes: 2 * commits + ((slots + 31) / 32 + 1) * settlings,
            syncs: 2 * commits + 2 * settlings,
            bytes: 544 * commits + (commits - commits / 64) + (128 * slots + 1) * settlings,
        }
    }
}
