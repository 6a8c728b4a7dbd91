// A binary heap of places, by when the pair of each first fits. The children of the node with an index are those with
// twice that index and one or two more, and none of them comes before it.
ghost use Rattle.std.specs.Prelude.{◌≡◌, ◌+◌, ◌*◌, ◌<◌, ◌≤◌, ◌^◌, ℕ, length, slice_index};
ghost use Rattle.std.specs.List.{SwappedAt};
ghost use Rattle.ss_schedule.specs.Held.{AreInHeap, AreInHeapBut, AreInverse, IsBelowParent, IsChild, fit_at, fit_of};

use ss_line::At;

/// What stands for no count: a pair that never fits comes last.
pub const NEVER: u64 = u64::MAX;

// When the pair of a key first fits.
fn fit_of(key: Option<(At, u64)>) -> u64
    ensures { result ≡ fit_of key }
{
    match key {
        None => NEVER,
        Some((_, fit)) => fit,
    }
}

// When the pair of the place at an index of the heap first fits.
fn fit_at(keys: &[Option<(At, u64)>], heap: &[u32], index: usize) -> u64
    requires all { length heap.now ≡ length keys.now }
    requires index { index < length heap.now }
    requires below { slice_index heap.now index < length heap.now }
    ensures { result ≡ fit_at keys.now heap.now index }
{
    fit_of(keys[heap[index] as usize])
}

// The places at two indexes of the heap change places.
fn change_places(heap: &mut [u32], positions: &mut [u32], one: usize, other: usize)
    requires few { length heap.old < 2 ^ 32 }
    requires inverse { AreInverse heap.old positions.old }
    requires one { one < length heap.old }
    requires other { other < length heap.old }
    ensures swapped { SwappedAt heap.old heap.new one other }
    ensures len { length heap.new ≡ length heap.old }
    ensures inverse { AreInverse heap.new positions.new }
{
    heap.swap(one, other);
    positions[heap[one] as usize] = one as u32;
    positions[heap[other] as usize] = other as u32;
}

// Moves the place at an index up until its parent doesn't come after it, and gives the index where it stands then.
fn sift_up(
    keys: &[Option<(At, u64)>],
    heap: &mut [u32],
    positions: &mut [u32],
    start: usize,
) -> usize
    requires hole { AreInHeapBut keys.now heap.old positions.old start }
    ensures hole { AreInHeapBut keys.now heap.new positions.new result }
    ensures below { IsBelowParent (fit_at keys.now heap.new) result }
{
    let mut index = start;
    while index > 0 {
        let parent = (index - 1) / 2;
        if fit_at(keys, heap, parent) <= fit_at(keys, heap, index) {
            return index;
        }
        change_places(heap, positions, parent, index);
        index = parent;
    }
    index
}

// The child of a node that no other child of it comes before. It has one at least.
fn least_child(keys: &[Option<(At, u64)>], heap: &[u32], index: usize) -> usize
    requires all { length heap.now ≡ length keys.now }
    requires below { (place : ℕ) → place < length heap.now → slice_index heap.now place < length heap.now }
    requires some { 2 * index + 1 < length heap.now }
    ensures child { IsChild index result }
    ensures inside { result < length heap.now }
    ensures least { (child : ℕ) → IsChild index child → child < length heap.now
        → fit_at keys.now heap.now result ≤ fit_at keys.now heap.now child }
{
    let left = 2 * index + 1;
    let right = left + 1;
    if right < heap.len() && fit_at(keys, heap, right) < fit_at(keys, heap, left) {
        return right;
    }
    left
}

// Moves the place at an index, which doesn't come before its parent, down until no child of it comes before it.
fn sift_down(keys: &[Option<(At, u64)>], heap: &mut [u32], positions: &mut [u32], start: usize)
    requires hole { AreInHeapBut keys.now heap.old positions.old start }
    requires below { IsBelowParent (fit_at keys.now heap.old) start }
    ensures heap { AreInHeap keys.now heap.new positions.new }
{
    let mut index = start;
    while 2 * index + 1 < heap.len() {
        let child = least_child(keys, heap, index);
        if fit_at(keys, heap, index) <= fit_at(keys, heap, child) {
            return;
        }
        change_places(heap, positions, index, child);
        index = child;
    }
}

/// Moves the place at an index, whose key changed, to where it has to stand in the heap.
pub fn restore(keys: &[Option<(At, u64)>], heap: &mut [u32], positions: &mut [u32], start: usize)
    requires hole { AreInHeapBut keys.now heap.old positions.old start }
    ensures heap { AreInHeap keys.now heap.new positions.new }
{
    let index = sift_up(keys, heap, positions, start);
    sift_down(keys, heap, positions, index);
}
