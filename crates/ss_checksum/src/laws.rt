// What changes the checksum tells of bytes that end with it, each law the contract of a function that does nothing.
ghost use Rattle.std.specs.Prelude.{◌≡◌, ◌*◌, ◌^◌, ◌<◌, ◌≤◌, ℕ, List, All, length, bit_xor};
ghost use Rattle.ss_checksum.specs.Changes.{AreAsLong, difference};
ghost use Rattle.ss_checksum.specs.Codeword.{IsChecked};

/// A run of at most 32 bits in which bytes with their checksum differ from as many others is told, wherever it lies.
pub fn bursts_are_told()
    ensures { (front xs ys : List ℕ) (run at : ℕ) → All (λ x. x < 2 ^ 8) front → AreAsLong xs ys → IsChecked front xs → 0 < run → run < 2 ^ 32 →
        difference xs ys ≡ run * 2 ^ at → ¬ IsChecked front ys }
{}

/// So are one bit and three; and two bits, where the bytes with their checksum are at most 544.
pub fn few_bits_are_told()
    ensures odd { (front xs ys : List ℕ) (i j k : ℕ) → All (λ x. x < 2 ^ 8) front → AreAsLong xs ys → IsChecked front xs →
        difference xs ys ≡ bit_xor (2 ^ i) (bit_xor (2 ^ j) (2 ^ k)) → ¬ IsChecked front ys }
    ensures two { (front xs ys : List ℕ) (i j : ℕ) → All (λ x. x < 2 ^ 8) front → AreAsLong xs ys → IsChecked front xs → length xs ≤ 544 → i < j →
        difference xs ys ≡ bit_xor (2 ^ i) (2 ^ j) → ¬ IsChecked front ys }
{}

/// Bytes with their checksum have no second front of as many bytes, where it has at most four.
pub fn fronts_are_told()
    ensures { (front other bytes : List ℕ) → AreAsLong front other → length front ≤ 4 → All (λ x. x < 2 ^ 8) bytes →
        IsChecked front bytes → IsChecked other bytes → other ≡ front }
{}
