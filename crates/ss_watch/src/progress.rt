// The line that says how far a run is, and renews itself.
use crate::explain::Counts;
use std::alloc::{AllocError, Global};
use std::rt::Clock;
use std::time::{Duration, Instant};

// A run shows nothing in so many milliseconds.
const QUIET: u64 = 1000;

// So many milliseconds pass before the line is renewed.
const RENEWED: u64 = 200;

/// How wide the line of progress is. What is left of it is blank.
pub const WIDTH: usize = 78;

/// What was done so far.
#[derive(Clone, Copy)]
pub struct Done {
    pub counts: Counts,
    /// How many bytes of the store were read.
    pub read: u64,
    /// How many writes to the store were made durable.
    pub syncs: u64,
}

/// When the line was shown, and whether it stands there.
#[derive(Drop)]
pub struct Progress {
    began: Option<Instant>,
    renewed: Option<Instant>,
    pub is_shown: bool,
}

// How many a second so many in this time are.
fn rate(count: u64, time: Duration) -> u64 {
    let millis = time
        .as_secs()
        .saturating_mul(1000)
        .saturating_add(u64::from(time.subsec_millis()));
    count.saturating_mul(1000) / millis.max(1)
}

// What the line says after this time.
fn counts_text(alloc: Global, done: &Done, time: Duration) -> Result<String, AllocError> {
    let counts = done.counts;
    if counts.read > 0 {
        let rate = rate(counts.read, time);
        let (read, accepted, refused) = (counts.read, counts.accepted, counts.refused);
        let many = counts.unit.many();
        format!(in alloc;
            "{read} {many} read, {accepted} accepted, {refused} refused, {rate} a second"
        )
    } else if done.syncs > 0 {
        let rate = rate(done.syncs, time);
        format!(in alloc; "{} syncs, {rate} a second", done.syncs)
    } else {
        let read = done.read / 1_000_000;
        format!(in alloc; "{read} MB of the store read")
    }
}

/// The line after this time, which takes the place of the one before.
pub fn progress_text(alloc: Global, done: &Done, time: Duration) -> Result<String, AllocError> {
    let text = counts_text(alloc, done, time)?;
    format!(in alloc; "\r{text:<WIDTH$}")
}

impl Progress {
    pub fn new() -> Progress {
        Progress {
            began: None,
            renewed: None,
            is_shown: false,
        }
    }

    /// From here on the time counts.
    pub fn restart(&mut self, clock: &impl Clock) {
        self.began = Instant::now(clock).ok();
    }

    /// How long the run has lasted, where the line is to be renewed now.
    pub fn due(&mut self, clock: &impl Clock) -> Option<Duration> {
        let now = Instant::now(clock).ok()?;
        let Some(began) = self.began else {
            self.began = Some(now);
            return None;
        };
        let since = now.duration_since(self.renewed.unwrap_or(began));
        let wanted = if self.renewed.is_none() {
            QUIET
        } else {
            RENEWED
        };
        if since < Duration::from_millis(wanted) {
            return None;
        }
        self.renewed = Some(now);
        Some(now.duration_since(began))
    }
}
