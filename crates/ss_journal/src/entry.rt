// The entries: read, judged and spelled.
ghost use Rattle.std.specs.Prelude.{◌≡◌, ◌+◌, ◌*◌, ◌≤◌, ◌<◌, ◌^◌, ◌==◌, ◌∷◌, ◌++◌, length, take, drop, IsTrue};
ghost use Rattle.std.specs.List.{list_all};
ghost use Rattle.ss_journal.specs.Puts.{slots_rise_from, slots_fit, extent_after, FillSlots, IsTxn};
ghost use Rattle.ss_journal.specs.Entries.{put_at, puts_of, is_good, put_count, put_bytes, entry_body};

use crate::format::{ENTRY_SIZE, MOST_PUTS, MOST_SLOTS, PUT_SIZE};
use crate::put::{Put, Txn};
use ss_base::SLOT_SIZE;
use ss_fields::{get_u32, put_u32};

// Where the put begins in an entry, after the gate and the count.
fn put_place(k: usize) -> usize
    requires { k < MOST_PUTS }
    ensures { result ≡ 2 + PUT_SIZE * k }
{
    2 + PUT_SIZE * k
}

// The entry's put number `k`.
fn put_at(entry: &[u8; ENTRY_SIZE], k: usize) -> Put
    requires { k < MOST_PUTS }
    ensures { result ≡ put_at entry.now k }
{
    let place = put_place(k);
    let mut bytes = [0; SLOT_SIZE];
    bytes.copy_from_slice(&entry[place + 4..place + PUT_SIZE]);
    Put {
        slot: get_u32(entry, place),
        bytes,
    }
}

// The entry's puts.
pub fn puts_of(entry: &[u8; ENTRY_SIZE]) -> Txn
    requires { put_count entry.now ≤ MOST_PUTS }
    ensures { result.items ≡ puts_of entry.now }
{
    let mut puts = Txn::new();
    for k in 0..usize::from(entry[1]) {
        puts.push(put_at(entry, k));
    }
    puts
}

// Whether the slots rise strictly and are numbers of slots.
fn slots_rise(puts: &[Put]) -> bool
    ensures { result ≡ slots_rise_from 0 puts.now }
{
    let mut least = 0;
    for put in puts {
        if put.slot < least || put.slot >= MOST_SLOTS {
            return false;
        }
        least = put.slot + 1;
    }
    true
}

// Whether each slot in order is at most the extent so far.
fn slots_fit(puts: &[Put], extent: u32) -> bool
    requires { extent + length puts.now < 2 ^ 32 }
    ensures { result ≡ slots_fit puts.now extent }
{
    let mut extent = extent;
    for put in puts {
        if put.slot > extent {
            return false;
        }
        if put.slot == extent {
            extent += 1;
        }
    }
    true
}

// The extent after the puts.
pub fn extent_after(puts: &[Put], extent: u32) -> u32
    requires { extent + length puts.now < 2 ^ 32 }
    ensures { result ≡ extent_after puts.now extent }
{
    let mut extent = extent;
    for put in puts {
        if put.slot == extent {
            extent += 1;
        }
    }
    extent
}

// Whether all of the bytes are zeros.
fn are_zeros(bytes: &[u8]) -> bool
    ensures { result ≡ list_all (λ byte. byte == 0) bytes.now }
{
    bytes.iter().all(|byte| *byte == 0)
}

// Whether zeros stand after the entry's puts.
fn rest_is_zeros(entry: &[u8; ENTRY_SIZE]) -> bool
    requires { put_count entry.now ≤ MOST_PUTS }
    ensures { result ≡ list_all (λ byte. byte == 0) (drop (2 + PUT_SIZE * put_count entry.now) entry.now) }
{
    are_zeros(&entry[2 + PUT_SIZE * usize::from(entry[1])..])
}

// Whether an entry is sound over this extent.
pub fn is_good(entry: &[u8; ENTRY_SIZE], extent: u32) -> bool
    requires { extent ≤ MOST_SLOTS }
    ensures value { result ≡ is_good entry.now extent }
    ensures few { IsTrue result → put_count entry.now ≤ MOST_PUTS }
{
    if entry[1] < 1 || usize::from(entry[1]) > MOST_PUTS {
        return false;
    }
    let puts = puts_of(entry);
    slots_rise(&puts) && slots_fit(&puts, extent) && rest_is_zeros(entry)
}

// Writes put number `k` into an entry.
fn write_put(entry: &mut [u8; ENTRY_SIZE], k: usize, put: &Put)
    requires { k < MOST_PUTS }
    ensures whole { length put.now.bytes ≡ SLOT_SIZE }
    ensures written { entry.new ≡ take (2 + PUT_SIZE * k) entry.old ++ put_bytes put.now ++ drop (2 + PUT_SIZE * (k + 1)) entry.old }
{
    let place = put_place(k);
    put_u32(entry, place, put.slot);
    entry[place + 4..place + PUT_SIZE].copy_from_slice(&put.bytes);
}

// The entry of the puts, with its gate closed.
pub fn entry_of(puts: &[Put]) -> [u8; ENTRY_SIZE]
    requires { length puts.now ≤ MOST_PUTS }
    ensures value { result ≡ 0 ∷ entry_body puts.now }
    ensures whole { FillSlots puts.now }
{
    let mut entry = [0; ENTRY_SIZE];
    entry[1] = puts.len() as u8;
    for k in 0..puts.len() {
        write_put(&mut entry, k, &puts[k]);
    }
    entry
}
