// Laws of what a stream may hold, each the contract of a function that does nothing.
ghost use Rattle.std.specs.Prelude.{◌≡◌, ℕ, ◌+◌, ◌≤◌, pos, ◌+ℤ◌, ◌≤ℤ◌, List, All, Some};
ghost use Rattle.ss_catalog.specs.declared.query.Kind.TheVariants as kinds;
ghost use Rattle.ss_catalog.specs.declared.query.Query.{Query};
ghost use Rattle.ss_landmarks.specs.Free.{is_free};
ghost use Rattle.ss_model.specs.History.{Happened};
ghost use Rattle.ss_model.specs.Interval.{interval_of_count, interval_of_sum, known_count, known_sum, split_windows};
ghost use Rattle.ss_model.specs.Marks.{marked_values};
ghost use Rattle.ss_model.specs.Refusals.{IsHistory};
ghost use Rattle.ss_model.specs.State.{Stream, state, stream_named};
ghost use Rattle.ss_laws.specs.Attained.{IsAttained, MayBeTrue};
ghost use Rattle.ss_laws.specs.Contents.{AreContents, Contents, contents_of, count_in, Like, sum_in, own_windows};
ghost use Rattle.ss_laws.specs.Moved.{AreIndistinguishable, MayBeCounted, moved_to_times};
ghost use Rattle.ss_laws.specs.Rebuilt.{rebuilt};
ghost use Rattle.ss_laws.specs.Sides.{AllFit, count_inside, Sides, sum_inside};

/// What a history gave a stream is something that a stream may hold, and the windows and landmarks of the stream are those of it.
pub fn histories_give_contents()
    ensures sound { (history : List Happened) → IsHistory history → All (λ s. AreContents (contents_of history s)) (state history) }
    ensures windows { (history : List Happened) → All (λ s. own_windows (contents_of history s) ≡ s.windows) (state history) }
    ensures landmarks { (history : List Happened) → All (λ s. (contents_of history s).landmarks ≡ s.landmarks) (state history) }
{}

/// The intervals that the windows of some contents give hold the truth over all contents that are like these.
pub fn intervals_hold_for_all_that_are_like()
    ensures count { (c d : Contents) (from to : ℕ) → AreContents d → Like d c →
        let answer = interval_of_count (is_free c.landmarks) from to (own_windows c) (marked_values c.landmarks) in
        (answer.0 ≤ count_in from to d) × (count_in from to d ≤ answer.1) }
    ensures sum { (c d : Contents) (from to : ℕ) → AreContents d → Like d c →
        let answer = interval_of_sum (is_free c.landmarks) from to (own_windows c) (marked_values c.landmarks) in
        (answer.0 ≤ℤ sum_in from to d) × (sum_in from to d ≤ℤ answer.1) }
{}

/// Where a range splits windows, any values that fit their figures may have been there: contents in which these take the place of
/// the actual ones are like the actual ones, and have just these in the range, beside what is known exactly.
pub fn rebuilt_is_like()
    ensures sound { (c : Contents) (from to : ℕ) (sides : List Sides) → AreContents c →
        AllFit (split_windows (is_free c.landmarks) from to (own_windows c)) sides → AreContents (rebuilt from to sides c) }
    ensures like { (c : Contents) (from to : ℕ) (sides : List Sides) → AreContents c →
        AllFit (split_windows (is_free c.landmarks) from to (own_windows c)) sides → Like (rebuilt from to sides c) c }
    ensures count { (c : Contents) (from to : ℕ) (sides : List Sides) → AreContents c →
        AllFit (split_windows (is_free c.landmarks) from to (own_windows c)) sides →
        count_in from to (rebuilt from to sides c) ≡ known_count from to (own_windows c) (marked_values c.landmarks) + count_inside sides }
    ensures sum { (c : Contents) (from to : ℕ) (sides : List Sides) → AreContents c →
        AllFit (split_windows (is_free c.landmarks) from to (own_windows c)) sides →
        sum_in from to (rebuilt from to sides c) ≡ (known_sum from to (own_windows c) (marked_values c.landmarks) +ℤ sum_inside sides) }
{}

/// So for each stream of a state, whatever history it is the state of: values that fit the windows that a range splits lie there in
/// some contents like those that the history gave the stream.
pub fn fitting_values_are_attained()
    ensures each { (history : List Happened) → IsHistory history →
        All (λ s. (from to : ℕ) (sides : List Sides) → AllFit (split_windows (is_free s.landmarks) from to s.windows) sides →
        IsAttained (contents_of history s) from to (known_count from to s.windows (marked_values s.landmarks) + count_inside sides)
        (known_sum from to s.windows (marked_values s.landmarks) +ℤ sum_inside sides)) (state history) }
    ensures named { (history : List Happened) (name : List ℕ) (s : Stream) (from to : ℕ) (sides : List Sides) → IsHistory history →
        stream_named name (state history) ≡ Some s → AllFit (split_windows (is_free s.landmarks) from to s.windows) sides →
        IsAttained (contents_of history s) from to (known_count from to s.windows (marked_values s.landmarks) + count_inside sides)
        (known_sum from to s.windows (marked_values s.landmarks) +ℤ sum_inside sides) }
{}

/// So an answer with such values inside may be the true one in a state that has the stream, for each history of this state.
pub fn fitting_answers_may_be_true()
    ensures count { (streams : List Stream) (query : Query) (s : Stream) (sides : List Sides) → stream_named query.name streams ≡ Some s →
        AllFit (split_windows (is_free s.landmarks) query.from query.to s.windows) sides → query.kind ≡ kinds.Count →
        MayBeTrue streams query (pos (known_count query.from query.to s.windows (marked_values s.landmarks) + count_inside sides)) }
    ensures sum { (streams : List Stream) (query : Query) (s : Stream) (sides : List Sides) → stream_named query.name streams ≡ Some s →
        AllFit (split_windows (is_free s.landmarks) query.from query.to s.windows) sides → query.kind ≡ kinds.Sum →
        MayBeTrue streams query (known_sum query.from query.to s.windows (marked_values s.landmarks) +ℤ sum_inside sides) }
{}

/// A count that is true of contents like the actual ones is true of the actual values, in their order, at the times of those: a store
/// keeps the same of these as of the actual ones, filters included.
pub fn counts_are_true_of_the_same_values()
    ensures sound { (c d : Contents) → AreContents c → AreContents d → Like d c → AreContents (moved_to_times c d) }
    ensures kept { (c d : Contents) → AreContents c → AreContents d → Like d c → AreIndistinguishable (moved_to_times c d) c }
    ensures count { (c d : Contents) (from to : ℕ) → AreContents c → AreContents d → Like d c →
        count_in from to (moved_to_times c d) ≡ count_in from to d }
    ensures may_be { (streams : List Stream) (query : Query) (count : ℕ) → query.kind ≡ kinds.Count → MayBeTrue streams query (pos count) →
        MayBeCounted streams query count }
{}
