// Filters of values.
ghost use Rattle.std.specs.Prelude.{◌≡◌, ◌^◌, ◌<◌};
ghost use Rattle.ss_summary.specs.Filters.{bit_of, filter_of, full, has, union, word, IsFilter};

/// 256 bits, of which each value has one: a value whose bit isn't set is none of those that the filter is of. Bit `b` is bit
/// `b mod 64` of the word `b div 64`. docs/DEFINITIONS.md ("Filters") says which bit a value has.
#[derive(Clone, Copy, Debug, PartialEq, Eq)]
pub struct Filter {
    pub words: [u64; 4],
}

// The number of a value's bit, of the 256.
#[tactic(auto, unfolding(crate::specs::Filters::bit_of))]
fn bit_of(v: i64) -> usize
    ensures value { result ≡ bit_of v }
    ensures few { result < 256 }
{
    (v.cast_unsigned().wrapping_mul(11400714819323198485) >> 56) as usize
}

// A word of a filter has 64 bits.
fn word_fits(filter: Filter, k: usize)
    requires { k < 4 }
    ensures { word filter k < 2 ^ 64 }
{
    // Read for the proof alone: with it comes that it is a number of 64 bits.
    let _word = filter.words[k];
}

// Each filter has four words of 64 bits.
pub fn words_fit(filter: Filter)
    ensures { IsFilter filter }
{
    word_fits(filter, 0);
    word_fits(filter, 1);
    word_fits(filter, 2);
    word_fits(filter, 3);
}

impl Filter {
    /// The filter with the bit of a value alone.
    #[tactic(auto, unfolding(crate::specs::Filters::filter_of))]
    pub fn of(v: i64) -> Filter
        ensures { result ≡ filter_of v }
    {
        let bit = bit_of(v);
        let mut words = [0; 4];
        words[bit / 64] = 1 << (bit % 64);
        Filter { words }
    }

    /// The filter with all bits, which tells nothing of any value.
    #[tactic(auto, unfolding(crate::specs::Filters::full))]
    pub fn full() -> Filter
        ensures { result ≡ full }
    {
        Filter {
            words: [u64::MAX; 4],
        }
    }

    /// The filter with the bits of both.
    #[tactic(auto, unfolding(crate::specs::Filters::union))]
    pub fn union(a: Filter, b: Filter) -> Filter
        ensures { result ≡ union a b }
    {
        Filter {
            words: [
                a.words[0] | b.words[0],
                a.words[1] | b.words[1],
                a.words[2] | b.words[2],
                a.words[3] | b.words[3],
            ],
        }
    }

    /// Whether the bit of a value is set.
    #[tactic(auto, unfolding(crate::specs::Filters::has))]
    pub fn has(&self, v: i64) -> bool
        ensures { result ≡ has self.now v }
    {
        let bit = bit_of(v);
        (self.words[bit / 64] >> (bit % 64)) & 1 == 1
    }
}
