// Times beside the last one of a stream.
ghost use Rattle.std.specs.Prelude.{◌≡◌};
ghost use Rattle.ss_model.specs.Refusals.{is_before, is_opening, is_past};

use ss_landmarks::Landmarks;

// Whether a time isn't later than the last one.
pub fn is_past(last_time: Option<u64>, t: u64) -> bool
    ensures { result ≡ is_past last_time t }
{
    match last_time {
        None => false,
        Some(last) => t <= last,
    }
}

// Whether a time is earlier than the last one.
pub fn is_before(last_time: Option<u64>, t: u64) -> bool
    ensures { result ≡ is_before last_time t }
{
    match last_time {
        None => false,
        Some(last) => t < last,
    }
}

// Whether the open landmark has no value yet and opened at this time.
pub fn is_opening(landmarks: &Landmarks, t: u64) -> bool
    ensures { result ≡ is_opening landmarks.now.landmarks t }
{
    match landmarks.opened() {
        None => false,
        Some((start, _, values)) => start == t && values == 0,
    }
}
