// The values of landmarks of a stream, one by one.
use super::Store;
use ss_catalog::{Name, Refusal, StreamId};

/// Values of landmarks of one stream that stand together: the number of the stream, the place of the first of them among all its
/// landmarks' values, oldest first, and how many they are.
#[derive(Clone, Copy, Debug, PartialEq, Eq)]
pub struct ValueRange {
    pub id: StreamId,
    pub first: u32,
    pub count: u32,
}

impl Store {
    ghost use Rattle.std.specs.Prelude.{◌≡◌, ◌+◌, ◌<◌, ◌≤◌, length, slice_get, None, Some, IsSome, IfSome, IfOk, IfErr, OnOk};
    ghost use Rattle.ss_landmarks.specs.Landmark.{all_values};
    ghost use Rattle.ss_landmarks.specs.declared.landmarks.TheConstants.{MOST_LANDMARK_SLOTS};
    ghost use Rattle.ss_store.specs.Kept.{part_named, part_numbered};
    ghost use Rattle.ss_store.specs.Newest.{refuses_values_held};
    ghost use Rattle.ss_store.specs.Values.{AreValuesIn};

    /// Where the values of landmarks of the stream of a name stand that have times in `from..=to`. It makes no call of the disk, and
    /// takes the logarithm of the number of values.
    pub fn values(&self, name: &Name, from: u64, to: u64) -> Result<ValueRange, Refusal>
        ensures refused { IfErr result (λ r. refuses_values_held self.now.streams name.now from to ≡ Some r) }
        ensures accepted { OnOk result (refuses_values_held self.now.streams name.now from to ≡ None) }
        ensures values { IfOk result (λ range. IfSome (part_numbered range.id.0 self.now.streams) (λ part.
            AreValuesIn part.landmarks.landmarks from to range)) }
        ensures same { IfOk result (λ range. part_numbered range.id.0 self.now.streams ≡ part_named name.now self.now.streams) }
        ensures stands { IfOk result (λ range. IsSome (part_numbered range.id.0 self.now.streams)) }
        ensures few { IfOk result (λ range. range.first + range.count ≤ MOST_LANDMARK_SLOTS) }
    {
        let Some(id) = self.find(name) else {
            return Err(Refusal::Unknown);
        };
        if to < from {
            return Err(Refusal::Range);
        }
        let landmarks = &self.part(id).landmarks;
        // Asked for the proof alone: with their number comes what holds of all landmarks.
        let _values = landmarks.values();
        let (first, count) = landmarks.places_in(from, to);
        Ok(ValueRange { id, first, count })
    }

    /// The time of the value at a place among those of all landmarks of the stream of a number, oldest first, and this value.
    pub fn value(&self, id: StreamId, place: u32) -> (u64, i64)
        requires stands { IsSome (part_numbered id.0 self.now.streams) }
        requires place { IfSome (part_numbered id.0 self.now.streams) (λ part. place < length (all_values part.landmarks.landmarks)) }
        ensures { IfSome (part_numbered id.0 self.now.streams) (λ part.
            slice_get (all_values part.landmarks.landmarks) place ≡ Some (record { t = result.0; v = result.1 })) }
    {
        self.part(id).landmarks.value_at(place)
    }
}
