// Laws, each the contract of a function that does nothing.
ghost use Rattle.std.specs.Prelude.{◌≡◌, ℕ, ◌^◌, ◌<◌, ◌≤◌, List, drop, Some, None, true};
ghost use Rattle.std.specs.List.{list_any};
ghost use Rattle.std.specs.Str.Parse.{starts_with_minus};
ghost use Rattle.ss_arguments.specs.Modes.{mode_of};

use crate::Mode;
use ss_generator::MOST_COUNT;

/// Where the arguments ask for a generated command file, the seed fits 64 bits, and the count is from 1 to `MOST_COUNT`.
pub fn numbers_of_gen_are_in_range()
    ensures seed { (words : List (List ℕ)) (seed count : ℕ) → mode_of words ≡ Some (Mode.Gen seed count) → seed < 2 ^ 64 }
    ensures count { (words : List (List ℕ)) (seed count : ℕ) → mode_of words ≡ Some (Mode.Gen seed count) →
        (1 ≤ count) × (count ≤ MOST_COUNT) }
{}

/// Where a word after the store's path begins with `-`, the words ask for no mode.
pub fn options_ask_for_no_mode()
    ensures { (words : List (List ℕ)) → list_any starts_with_minus (drop 2 words) ≡ true → mode_of words ≡ None }
{}
