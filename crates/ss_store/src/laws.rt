// Laws of stores and their disks, each the contract of a function that does nothing.
ghost use Rattle.std.specs.Prelude.{◌≡◌, ◌+◌, ◌*◌, ◌<◌, ◌≤◌, max, ℕ, Bool, IsTrue, List, [], length, Ok};
ghost use Rattle.ss_outside.specs.Verdict.{OnFine, Verdict};
ghost use Rattle.ss_catalog.specs.declared.event.Event.{Event};
ghost use Rattle.ss_catalog.specs.declared.query.Query.{Query};
ghost use Rattle.ss_journal.specs.Format.{is_unborn};
ghost use Rattle.ss_journal.specs.Calls.{HasSealed};
ghost use Rattle.ss_journal.specs.Kept.{IsSealed};
ghost use Rattle.ss_journal.specs.Redo.{SlotMap, StandsFor};
ghost use Rattle.ss_journal.specs.declared.format.TheConstants.{FIRST_SLOT, MOST_SLOTS};
ghost use Rattle.ss_base.specs.declared.limits.TheConstants.{SLOT_SIZE};
ghost use Rattle.ss_records.specs.Kept.{shown_by};
ghost use Rattle.ss_records.specs.Live.{live_count};
ghost use Rattle.ss_model.specs.History.{Happened};
ghost use Rattle.ss_model.specs.Answers.{refuses_query};
ghost use Rattle.ss_model.specs.Newest.{refuses_values};
ghost use Rattle.ss_model.specs.Refusals.{refuses, refuses_reading};
ghost use Rattle.ss_model.specs.Standing.{IsState};
ghost use Rattle.ss_model.specs.State.{Stream, live, state, stream_named, stream_numbered, values_in};
ghost use Rattle.ss_parts.specs.Held.{Agrees, AllAgree, AreWhole, entries_of};
ghost use Rattle.ss_parts.specs.declared.parts.StreamParts.{StreamParts};
ghost use Rattle.ss_model.specs.Standing.{IsStream};
ghost use Rattle.ss_model.specs.declared.types.Ack.{Ack};
ghost use Rattle.ss_stream.specs.Held.{values_held};
ghost use Rattle.ss_store.specs.Applied.{Applies, Looks, OpensStore};
ghost use Rattle.ss_store.specs.Asked.{refuses_query_held};
ghost use Rattle.ss_store.specs.Extents.{AllGrowLittle, GrowsLittle, records_held_in};
ghost use Rattle.ss_store.specs.Kept.{SomeAgree, StoreIsKept, StoreState, live_held, part_named, part_numbered, refuses_held};
ghost use Rattle.ss_store.specs.Newest.{refuses_reading_held, refuses_values_held};
ghost use Rattle.ss_store.specs.Recover.{Recovers, Stands};

use ss_outside::Disk;

/// What a store holds agrees with the state that its records show, which are those of the content where nothing is staged.
pub fn what_is_kept_is_the_state()
    ensures state { (store : StoreState) (content : List ℕ) (streams : List Stream) → StoreIsKept store content →
        Recovers streams (shown_by store.records content) → AllAgree store.streams streams × IsState streams }
    ensures history { (store : StoreState) (content : List ℕ) (history : List Happened) → StoreIsKept store content →
        Stands history (shown_by store.records content) → AllAgree store.streams (state history) × IsState (state history) }
    ensures recovers { (store : StoreState) (content : List ℕ) → StoreIsKept store content →
        (streams : List Stream) × Recovers streams (shown_by store.records content) × AllAgree store.streams streams × IsState streams }
    ensures sealed { (store : StoreState) (content : List ℕ) → IsSealed store.records.journal → shown_by store.records content ≡ content }
{}

/// Streams that are held agree one by one, and are found alike, by name and by number.
pub fn what_is_held_is_found_alike()
    ensures named { (parts : List StreamParts) (streams : List Stream) (name : List ℕ) → AllAgree parts streams →
        SomeAgree (part_named name parts) (stream_named name streams) }
    ensures numbered { (parts : List StreamParts) (streams : List Stream) (number : ℕ) → AllAgree parts streams →
        SomeAgree (part_numbered number parts) (stream_numbered number streams) }
{}

/// A stream that is held has as many values and windows as the stream that it agrees with.
pub fn what_is_held_counts_alike()
    ensures values { (part : StreamParts) (s : Stream) → IsStream s → Agrees part s → values_held (entries_of part) ≡ values_in s }
    ensures windows { (part : StreamParts) (s : Stream) → Agrees part s → length part.line.entries ≡ length s.windows }
    ensures streams { (parts : List StreamParts) (streams : List Stream) → AllAgree parts streams → length parts ≡ length streams }
    ensures records { (parts : List StreamParts) (streams : List Stream) (bits : List Bool) → AllAgree parts streams →
        AreWhole parts bits → live_count bits ≡ live streams }
    ensures slots { (parts : List StreamParts) (streams : List Stream) → AllAgree parts streams →
        live_held parts ≡ live streams }
{}

/// Refusals by what is held are those of the state that it agrees with.
pub fn refusals_of_what_is_held()
    ensures { (parts : List StreamParts) (streams : List Stream) (event : Event) → AllAgree parts streams → IsState streams →
        refuses_held parts event ≡ refuses streams event }
{}

/// Refusals of queries by what is held are those of the state that it agrees with.
pub fn query_refusals_of_what_is_held()
    ensures { (parts : List StreamParts) (streams : List Stream) (query : Query) → AllAgree parts streams →
        refuses_query_held parts query ≡ refuses_query streams query }
{}

/// Refusals of looks at the stream of a name, and at the values of its landmarks in a range, are those of the state too.
pub fn reading_refusals_of_what_is_held()
    ensures name { (parts : List StreamParts) (streams : List Stream) (name : List ℕ) → AllAgree parts streams →
        refuses_reading_held parts name ≡ refuses_reading streams name }
    ensures values { (parts : List StreamParts) (streams : List Stream) (name : List ℕ) (from to : ℕ) → AllAgree parts streams →
        refuses_values_held parts name from to ≡ refuses_values streams name from to }
{}

/// A file that isn't formed stands for the empty history.
pub fn unformatted_files_stand_for_nothing()
    ensures { (image : List ℕ) → IsTrue (is_unborn image) → Stands [] image }
{}

/// A file has no more bytes than those before the slots, and those of the slots that are used, where the last may be cut off.
pub fn files_are_as_long_as_their_slots()
    // the slots that an image uses, as long as it doesn't use all
    ensures image { (image : List ℕ) (found : SlotMap) → StandsFor image found → found.extent < MOST_SLOTS →
        length image < FIRST_SLOT + SLOT_SIZE * (found.extent + 1) }
    // and those that a store uses on its disk, where nothing is staged
    ensures kept { (store : StoreState) (content : List ℕ) → StoreIsKept store content → IsSealed store.records.journal →
        store.records.journal.extent < MOST_SLOTS → length content < FIRST_SLOT + SLOT_SIZE * (store.records.journal.extent + 1) }
{}

/// No call uses more slots than were used before it, or than the records that were held then and one.
pub fn calls_grow_little<D: Disk>()
    // an event that is staged or applied
    ensures applied { (event : Event) (old new : StoreState) (before after : D) (ack : Ack) →
        Applies event old new (D.seen before) (D.seen after) (Ok ack) → GrowsLittle old new }
    // a seal, and a look that answers
    ensures sealed { (old new : StoreState) → HasSealed old.records.journal new.records.journal → GrowsLittle old new }
    ensures looked { (v : Verdict) (old new : StoreState) (before after : D) → Looks v old new (D.seen before) (D.seen after) →
        OnFine v (GrowsLittle old new) }
    // the records that are held are those that the history needs which is shown
    ensures held { (store : StoreState) (content : List ℕ) (history : List Happened) → StoreIsKept store content →
        Stands history (shown_by store.records content) → records_held_in store ≡ live (state history) }
{}

/// A file never shrinks, but calls in a row, from an opening on, leave it no longer than it was, or than the most records that were
/// ever held before a call need, with two slots more: that of the record which the call puts, and one that may be cut off.
pub fn files_stay_short<D: Disk>()
    ensures extent { (first last : StoreState) (stores : List StoreState) (most : ℕ) → AllGrowLittle most first stores last →
        last.records.journal.extent ≤ max first.records.journal.extent (most + 1) }
    ensures bytes { (old new : D) (found : SlotMap) (first last : StoreState) (stores : List StoreState) (most : ℕ) (content : List ℕ) →
        OpensStore (Ok first) (D.seen old).told (D.seen new).told → StandsFor (D.seen old).told.content found →
        AllGrowLittle most first stores last → StoreIsKept last content → IsSealed last.records.journal →
        max found.extent (most + 1) < MOST_SLOTS → length content < FIRST_SLOT + SLOT_SIZE * (max found.extent (most + 1) + 1) }
{}
