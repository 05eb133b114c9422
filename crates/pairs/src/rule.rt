// The pairs of a rule, from its notes.
ghost use Rattle.std.specs.Prelude.{◌≡◌, ◌≤◌, ◌<◌, length};
ghost use Rattle.basics.specs.Lists.{All};
ghost use Rattle.sheet.specs.views.NoteArray.{notes_in};
ghost use Rattle.pairs.specs.views.KeptPairs.{pair_code, pairs_in, keep_all};
ghost use Rattle.pairs.specs.views.NoteVariables.{name_of, names_variable, codes_with, notes_codes, Placed};

use crate::Put;
use crate::kept::put_pair;
use patterns::PatternRecord;

// The variable of a record, if it is one.
pub fn name_of(what: PatternRecord) -> Option<u8>
    ensures { result ≡ name_of what }
{
    match what {
        PatternRecord::Variable(v) | PatternRecord::Ranged(v, _, _) => Some(v),
        _ => None,
    }
}

// Is the record variable v?
pub fn is_named(v: u8, what: PatternRecord) -> bool
    ensures { result ≡ names_variable v what }
{
    match what {
        PatternRecord::Variable(u) | PatternRecord::Ranged(u, _, _) => v == u,
        _ => false,
    }
}

// The number of a pair of places.
fn pair_code(p: usize, q: usize) -> u32
    requires { (p < 680) × (q < 680) }
    ensures { result ≡ pair_code p q }
{
    (p as u32) * 0x1_0000 + q as u32
}

// Keeps the pairs of a place of variable v with the places of v among later notes.
fn pairs_with(later: &[u64], place: usize, v: u8, codes: &mut [u32; 65], count: usize) -> usize
    requires { (place < 680) × All Placed (notes_in later.now (length later.now)) × (count ≤ 65) × (length codes.old ≡ 65) }
    ensures result_after { pairs_in codes.new result
        ≡ keep_all (codes_with place v (notes_in later.now (length later.now))) (pairs_in codes.old count) }
    ensures upper_bound { (result ≤ 65) × (length codes.new ≡ 65) }
{
    let mut put = Put {
        count,
        next: 0,
        last: 0,
    };
    for code in later {
        if 64 < put.count {
            return put.count;
        }
        if is_named(v, patterns::note_record(*code)) {
            put = put_pair(codes, put, pair_code(place, patterns::note_place(*code)));
        }
    }
    put.count
}

// Keeps all pairs of a rule. Not neighbours alone where a variable stands at three places, nor pairs of two variables.
pub fn pair_rule(notes: &[u64; 680], n: usize, codes: &mut [u32; 65], count: usize) -> usize
    requires { (n ≤ 680) × (length notes.now ≡ 680) × All Placed (notes_in notes.now n)
        × (count ≤ 65) × (length codes.old ≡ 65) }
    ensures result_after { pairs_in codes.new result
        ≡ keep_all (notes_codes (notes_in notes.now n)) (pairs_in codes.old count) }
    ensures upper_bound { (result ≤ 65) × (length codes.new ≡ 65) }
{
    let mut pairs = count;
    for i in 0..n {
        if 64 < pairs {
            return pairs;
        }
        let code = notes[i];
        if let Some(v) = name_of(patterns::note_record(code)) {
            pairs = pairs_with(
                &notes[i + 1..n],
                patterns::note_place(code),
                v,
                codes,
                pairs,
            );
        }
    }
    pairs
}
