// Laws, each the contract of a function that does nothing.
ghost use Rattle.std.specs.Prelude.{◌≡◌, ℕ, ◌+◌, ◌^◌, ◌<◌, ◌≤◌, ◌++◌, List, length, take, drop, Ok, ℤ, FitsSigned};
ghost use Rattle.std.specs.Int.{cast_signed, cast_unsigned, w64, w128};
ghost use Rattle.std.specs.Fmt.{decimal, signed_decimal};
ghost use Rattle.ss_fields.specs.Fields.{number_at, number_bytes};
ghost use Rattle.ss_fields.specs.Words.{unsigned_of, signed_of};

/// A number of n bytes that was written at a place reads back from there.
pub fn written_number_reads_back()
    ensures { (n at x : ℕ) (bytes : List ℕ) → at + n ≤ length bytes → x < 256 ^ n
        → number_at n (take at bytes ++ number_bytes n x ++ drop (at + n) bytes) at ≡ x }
{}

/// An `i64` that was written at a place reads back from there.
pub fn written_i64_reads_back()
    ensures { (at : ℕ) (z : ℤ) (bytes : List ℕ) → at + 8 ≤ length bytes → FitsSigned w64 z
        → cast_signed w64 (number_at 8 (take at bytes ++ number_bytes 8 (cast_unsigned w64 z) ++ drop (at + 8) bytes) at) ≡ z }
{}

/// An `i128` that was written at a place reads back from there.
pub fn written_i128_reads_back()
    ensures { (at : ℕ) (z : ℤ) (bytes : List ℕ) → at + 16 ≤ length bytes → FitsSigned w128 z
        → cast_signed w128 (number_at 16 (take at bytes ++ number_bytes 16 (cast_unsigned w128 z) ++ drop (at + 16) bytes) at) ≡ z }
{}

/// A `u64` that was printed reads back.
pub fn printed_u64_reads_back()
    ensures { (n : ℕ) → n < 2 ^ 64 → unsigned_of (decimal n) ≡ Ok n }
{}

/// An `i64` that was printed reads back.
pub fn printed_i64_reads_back()
    ensures { (z : ℤ) → FitsSigned w64 z → signed_of (signed_decimal z) ≡ Ok z }
{}
