// Records in the order of their streams.
ghost use Rattle.std.specs.Prelude.{◌≡◌, OnOk};
ghost use Rattle.std.specs.List.Sorted.{IsPermutation};
ghost use Rattle.ss_recover.specs.Carried.{in_order};
ghost use Rattle.ss_recover.specs.Order.{found_key};

use crate::found::Found;
use ss_codec::Record;
use std::alloc::AllocError;

// How many places a stream can have in the order, how many of them come before its windows, and how many a landmark has.
const PLACES: u128 = 1 << 65;

const BEFORE_WINDOWS: u128 = 1 << 64;

const OF_A_LANDMARK: u128 = 1 << 32;

// By number, and in each number the stream's record first, then its landmarks by their numbers, each with its values by their
// indexes, and then its windows by their first positions.
fn key_of(found: &Found) -> u128
    ensures { result ≡ found_key found.now }
{
    match found.holds {
        Record::Free => 0,
        Record::Stream { id, .. } => u128::from(id) * PLACES,
        Record::Landmark { id, number, .. } => {
            u128::from(id) * PLACES + u128::from(number) * OF_A_LANDMARK
        }
        Record::Value {
            id,
            number,
            index,
            ..
        } => u128::from(id) * PLACES + u128::from(number) * OF_A_LANDMARK + u128::from(index),
        Record::Window { id, first, .. } => {
            u128::from(id) * PLACES + BEFORE_WINDOWS + u128::from(first)
        }
    }
}

// Sorts records by their keys. Those with one key stay in their order.
pub fn sort(all: &mut Vec<Found>) -> Result<(), AllocError>
    ensures order { OnOk result (all.new.items ≡ in_order found_key all.old.items) }
    ensures permutation { IsPermutation all.old.items all.new.items }
{
    all.sort_by_key(|found| key_of(found))
}
