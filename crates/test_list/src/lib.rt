// The tests of a sheet listed in its tables: the tested places, ascending, then the kept pairs, by their numbers.
#![tactic(auto)]

pub mod numbers; // the numbers of places
pub mod tests; // the tests in the tables

ghost use Rattle.std.specs.Prelude.{◌≡◌, ◌++◌, map, ℕ, ◌+◌, ◌≤◌, length, take};
ghost use Rattle.masks.specs.Mask.{members};
ghost use Rattle.sheet_tests.specs.views.TestedPlaces.{places_in};

pub use tests::{list_tests, put_tests};

// Lists the members of a word, counted from a base, behind those that are listed, and answers how many there are now.
fn list_word(word: u64, base: usize, places: &mut [u16; 64], count: usize) -> usize
    requires { (base ≤ 640) × (count + length (members 64 word) ≤ 64) × (length places.old ≡ 64) }
    ensures places_after { take result places.new
        ≡ take count places.old ++ map (λ (j : ℕ). base + j) (members 64 word) }
    ensures value { (result ≡ count + length (members 64 word)) × (length places.new ≡ 64) }
{
    let mut left = word;
    let mut n = count;
    while left != 0 {
        let i = left.trailing_zeros() as usize;
        places[n] = (base + i) as u16;
        n += 1;
        left &= left - 1;
    }
    n
}

// Lists the tested places, ascending, and answers how many there are. Not the places in the order of the rules, nor those of the
// first word alone.
pub fn list_places(words: &[u64; 11], places: &mut [u16; 64]) -> usize
    requires { (length words.now ≡ 11) × (length (places_in words.now) ≤ 64) × (length places.old ≡ 64) }
    ensures places_after { take result places.new ≡ places_in words.now }
    ensures value { (result ≡ length (places_in words.now)) × (length places.new ≡ 64) }
{
    let mut count: usize = 0;
    for i in 0..11 {
        count = list_word(words[i], 64 * i, places, count);
    }
    count
}
