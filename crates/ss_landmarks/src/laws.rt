// Laws of landmarks, each the contract of a function that does nothing.
ghost use Rattle.std.specs.Prelude.{◌≡◌, ◌↔◌, ℕ, ℤ, ◌+◌, ◌-◌, ◌<◌, ◌≤◌, FitsSigned, IsTrue, List, [], ◌∷◌, ◌++◌, length, map, Contains};
ghost use Rattle.std.specs.Prelude.{Some, IsNone, IsSome, MatchOption};
ghost use Rattle.std.specs.Int.{w64};
ghost use Rattle.ss_landmarks.specs.Free.{free};
ghost use Rattle.ss_landmarks.specs.Landmark.{Landmark, LandmarkValue, all_values, open_landmark};
ghost use Rattle.ss_landmarks.specs.Landmark.{opened_at, with_value, closed_at, change_last};
ghost use Rattle.ss_landmarks.specs.Order.{AllEndBy, AreLandmarks, CanOpen, CanTake, CanClose};
ghost use Rattle.ss_landmarks.specs.ValuesIn.{is_among};

use ss_base::LAST_TIME;

/// After the last time of some landmarks one may be opened if none is open, and the open one may take a value or be closed.
/// It may be closed at the last time too, and take its first value at its opening.
pub fn times_may_follow()
    ensures open { (ls : List Landmark) (last t : ℕ) → AllEndBy last ls → IsNone (open_landmark ls) → last < t → CanOpen ls t }
    ensures take { (ls : List Landmark) (last t : ℕ) → AllEndBy last ls → IsSome (open_landmark ls) → last < t → CanTake ls t }
    ensures first { (ls : List Landmark) (t : ℕ)
        → MatchOption (open_landmark ls) ⊥ (λ l. (l.start ≤ t) × (length l.values ≡ 0)) → CanTake ls t }
    ensures close { (ls : List Landmark) (last t : ℕ) → AllEndBy last ls → IsSome (open_landmark ls) → last ≤ t → CanClose ls t }
{}

/// An opening, a value and a closing that may follow leave landmarks in order of time.
pub fn landmarks_stay_in_order()
    ensures open { (ls : List Landmark) (t : ℕ) → AreLandmarks ls → CanOpen ls t → t ≤ LAST_TIME
        → AreLandmarks (ls ++ opened_at t ∷ []) }
    ensures take { (ls : List Landmark) (value : LandmarkValue) → AreLandmarks ls → CanTake ls value.t → value.t ≤ LAST_TIME
        → FitsSigned w64 value.v → AreLandmarks (change_last (with_value value) ls) }
    ensures close { (ls : List Landmark) (t : ℕ) → AreLandmarks ls → CanClose ls t → t ≤ LAST_TIME
        → AreLandmarks (change_last (closed_at t) ls) }
{}

/// The landmark that was opened is open, and with each value that it takes, and none is open once it is closed.
pub fn the_last_is_open()
    ensures open { (ls : List Landmark) (t : ℕ) → IsNone (open_landmark ls)
        → open_landmark (ls ++ opened_at t ∷ []) ≡ Some (opened_at t) }
    ensures take { (ls : List Landmark) (value : LandmarkValue) (l : Landmark) → AreLandmarks ls → open_landmark ls ≡ Some l
        → open_landmark (change_last (with_value value) ls) ≡ Some (with_value value l) }
    ensures close { (ls : List Landmark) (t : ℕ) → AreLandmarks ls → IsNone (open_landmark (change_last (closed_at t) ls)) }
{}

/// None of their times is after that of an opening, a value or a closing that comes after those before.
pub fn last_times_rise()
    ensures open { (ls : List Landmark) (last t : ℕ) → AllEndBy last ls → last ≤ t → AllEndBy t (ls ++ opened_at t ∷ []) }
    ensures take { (ls : List Landmark) (last : ℕ) (value : LandmarkValue) → AllEndBy last ls → last ≤ value.t
        → AllEndBy value.t (change_last (with_value value) ls) }
    ensures close { (ls : List Landmark) (last t : ℕ) → AllEndBy last ls → last ≤ t → AllEndBy t (change_last (closed_at t) ls) }
{}

/// An opening and a closing leave the values, and a value comes after those before.
pub fn values_come_last()
    ensures open { (ls : List Landmark) (t : ℕ) → all_values (ls ++ opened_at t ∷ []) ≡ all_values ls }
    ensures take { (ls : List Landmark) (value : LandmarkValue) → 0 < length ls
        → all_values (change_last (with_value value) ls) ≡ all_values ls ++ value ∷ [] }
    ensures close { (ls : List Landmark) (t : ℕ) → all_values (change_last (closed_at t) ls) ≡ all_values ls }
{}

/// The free times of two ranges, one after the other, are those of both, and there are no more than times.
pub fn free_times_add_up()
    ensures both { (ls : List Landmark) (p q r : ℕ) → p ≤ q + 1 → q ≤ r → free ls p q + free ls (q + 1) r ≡ free ls p r }
    ensures most { (ls : List Landmark) (p q : ℕ) → free ls p q ≤ q + 1 - p }
{}

/// A value is among some landmark values exactly where one of them is this value.
pub fn which_values_are_among_them()
    ensures { (v : ℤ) (values : List LandmarkValue) → IsTrue (is_among v values) ↔ Contains (map (λ value. value.v) values) v }
{}
