// Bits in words of 64.
ghost use Rattle.std.specs.Prelude.{◌≡◌, ◌≢◌, ◌+◌, ◌*◌, ◌/◌, ◌^◌, ◌<◌, ◌≤◌, ◌==◌, ℕ, false, true, length, slice_index, if◌then◌else◌};
ghost use Rattle.std.specs.Int.{bit_at};
ghost use Rattle.ss_records.specs.Bits.{is_set, is_full_word};

// Whether bit `k` is set.
pub fn has_bit(words: &[u64], k: usize) -> bool
    requires { k / 64 < length words.now }
    ensures { result ≡ is_set words.now k }
{
    words[k / 64] >> (k % 64) & 1 == 1
}

// The word with its bit `k` as told.
fn with_bit(word: u64, k: usize, to: bool) -> u64
    requires { k < 64 }
    ensures { (j : ℕ) → j < 64 → bit_at result j ≡ (if j == k then (if to then 1 else 0) else bit_at word j) }
{
    let bit = 1 << k;
    if to { word | bit } else { word & !bit }
}

// Sets or clears bit `k`, and tells whether its word is full then.
pub fn put_bit(words: &mut Vec<u64>, k: usize, to: bool) -> bool
    requires { k / 64 < length words.old.items }
    ensures len { length words.new.items ≡ length words.old.items }
    ensures bits { (j : ℕ) → is_set words.new.items j ≡ (if j == k then to else is_set words.old.items j) }
    ensures others { (n : ℕ) → n ≢ k / 64 → slice_index words.new.items n ≡ slice_index words.old.items n }
    ensures full { result ≡ is_full_word (slice_index words.new.items (k / 64)) }
{
    let word = with_bit(words[k / 64], k % 64, to);
    words[k / 64] = word;
    word == u64::MAX
}

// The first bit of word `n` that isn't set.
pub fn first_clear(words: &[u64], n: usize) -> usize
    requires word { n < length words.now }
    requires fits { 64 * length words.now < 2 ^ 64 }
    requires room { is_full_word (slice_index words.now n) ≡ false }
    ensures from { 64 * n ≤ result }
    ensures within { result < 64 * n + 64 }
    ensures clear { is_set words.now result ≡ false }
    ensures before { (j : ℕ) → 64 * n ≤ j → j < result → is_set words.now j ≡ true }
{
    64 * n + words[n].trailing_ones() as usize
}
