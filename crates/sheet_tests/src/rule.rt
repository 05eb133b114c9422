// The place tests of a rule, from its notes.
ghost use Rattle.std.specs.Prelude.{◌≡◌, ◌≤◌, length};
ghost use Rattle.basics.specs.Lists.{All};
ghost use Rattle.sheet.specs.views.NoteArray.{notes_in};
ghost use Rattle.sheet_tests.specs.views.TestedPlaces.{places_in, insert_all};
ghost use Rattle.pairs.specs.views.NoteVariables.{Placed};
ghost use Rattle.sheet_tests.specs.views.NoteTests.{is_tested, tested_places, has_range};

use crate::tested::mark;
use patterns::PatternRecord;

// Has variable v a range?
fn has_range(high: &[u32; 16], v: u8) -> bool
    requires { length high.now ≡ 16 }
    ensures { result ≡ has_range high.now v }
{
    let i = v as usize;
    i < 16 && high[i] < 0x1_0000
}

// Is the record a place test?
fn is_tested(what: PatternRecord, high: &[u32; 16]) -> bool
    requires { length high.now ≡ 16 }
    ensures { result ≡ is_tested (has_range high.now) what }
{
    match what {
        PatternRecord::Anything => false,
        PatternRecord::Variable(v) | PatternRecord::Ranged(v, _, _) => has_range(high, v),
        _ => true,
    }
}

// Marks the places of a rule's place tests. Not those of variables that have no range, nor a range's place alone where its
// variable stands at others too.
pub fn mark_rule(notes: &[u64; 680], n: usize, high: &[u32; 16], words: &mut [u64; 11])
    requires { (n ≤ 680) × (length notes.now ≡ 680) × (length high.now ≡ 16) × (length words.old ≡ 11)
        × All Placed (notes_in notes.now n) }
    ensures words_after { places_in words.new
        ≡ insert_all (tested_places (has_range high.now) (notes_in notes.now n))
        (places_in words.old) }
    ensures words_len { length words.new ≡ 11 }
{
    for code in &notes[..n] {
        if is_tested(patterns::note_record(*code), high) {
            mark(words, patterns::note_place(*code));
        }
    }
}
