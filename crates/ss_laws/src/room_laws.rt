// Laws on how many records a whole store needs, each the contract of a function that does nothing.
ghost use Rattle.std.specs.Prelude.{◌≡◌, ◌≢◌, ◌+◌, ◌-◌, ◌*◌, ◌^◌, ◌<◌, ◌≤◌, max, ℕ, List, All, length, Some};
ghost use Rattle.ss_catalog.specs.declared.params.Family.TheVariants.{Exp, Power};
ghost use Rattle.ss_catalog.specs.declared.event.Event.{Event};
ghost use Rattle.ss_catalog.specs.declared.refusal.Refusal.TheVariants.{StoreFull};
ghost use Rattle.ss_laws.specs.Sizes.{HoldsAtMost, TakesAtMost};
ghost use Rattle.ss_model.specs.History.{Happened};
ghost use Rattle.ss_model.specs.Refusals.{refuses};
ghost use Rattle.ss_model.specs.State.{Stream, live, state};
ghost use Rattle.ss_model.specs.declared.types.TheConstants.{MOST_RECORDS};
ghost use Rattle.ss_targets.specs.Power.{IsPower};
ghost use Rattle.ss_targets.specs.Exp.{IsExp};

/// Where K target windows and B steps do for each stream, a store needs at most 2K + B - 1 records for each. To these come those of landmarks
/// and of their values. So streams of an exponential target need a logarithm of their values each, and those of a power-law target a power
/// of them, and either one for each step more.
pub fn stores_are_small()
    ensures streams { (history : List Happened) (k m : ℕ) → All (TakesAtMost history k m) (state history) →
        live (state history) ≤ length (state history) * (max 1 k + m) }
    ensures exp { (history : List Happened) (b r s n g steps m : ℕ) → IsExp b r s → (b - 1) * n ≤ r * s * (b ^ g - 1) →
        All (HoldsAtMost history (Exp b r s) n steps m) (state history) →
        live (state history) ≤ length (state history) * (max 1 (2 * (r * g) + steps - 1) + m) }
    ensures power { (history : List Happened) (p q r s n g steps m : ℕ) → IsPower p q r s → (p + q) * n ≤ r * s * g ^ (p + q) →
        All (HoldsAtMost history (Power p q r s) n steps m) (state history) →
        live (state history) ≤ length (state history) * (max 1 (2 * (r * g ^ p) + steps - 1) + m) }
{}

/// No event is refused STORE_FULL while fewer than 2^20 records stand. With the law above this says how many values of how many streams
/// surely fit.
pub fn small_stores_have_room()
    ensures { (streams : List Stream) (event : Event) → live streams < MOST_RECORDS → refuses streams event ≢ Some StoreFull }
{}
