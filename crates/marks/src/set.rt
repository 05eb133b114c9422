// A set of places, in words of 64 bits.
ghost use Rattle.std.specs.Prelude.{◌≡◌, ◌<◌, length};
ghost use Rattle.marks.specs.views.Marks.{with_place};

// Puts a place into the set. Not that place alone, nor the place with the same bit in another word.
pub fn mark(words: &mut [u64; 11], place: usize)
    requires { (place < 704) × (length words.old ≡ 11) }
    ensures words_after { words.new ≡ with_place words.old place }
    ensures words_len { length words.new ≡ 11 }
{
    let word = place / 64;
    words[word] = masks::insert(words[word], place % 64);
}
