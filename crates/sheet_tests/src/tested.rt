// The set of tested places, in words of 64 bits.
ghost use Rattle.std.specs.Prelude.{◌≡◌, ◌<◌, ltb, length};
ghost use Rattle.basics.specs.Order.{insert_by};
ghost use Rattle.sheet_tests.specs.views.TestedPlaces.{places_in};

// Puts a place into the set. Not that place alone, nor the place with the same bit in another word.
pub fn mark(words: &mut [u64; 11], place: usize)
    requires { (place < 704) × (length words.old ≡ 11) }
    ensures words_after { places_in words.new ≡ insert_by ltb place (places_in words.old) }
    ensures words_len { length words.new ≡ 11 }
{
    marks::mark(words, place);
}

// How many places the set has. Not the number of words that are not empty, nor the highest place.
pub fn count_places(words: &[u64; 11]) -> usize
    requires { length words.now ≡ 11 }
    ensures { result ≡ length (places_in words.now) }
{
    let mut total: usize = 0;
    for word in words {
        total += masks::size(*word);
    }
    total
}
