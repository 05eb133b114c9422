// A rule read in prefix order: the places of its symbols, series, ranges and compounds are marked, its variables noted.
// Questions 4 to 8.
ghost use Rattle.std.specs.Prelude.{◌≡◌, suc, ◌+◌, ◌*◌, ◌≤◌, ◌<◌, length};
ghost use Rattle.places.specs.Numbering.{stride};
ghost use Rattle.patterns.specs.views.PatternRecord.{record_bytes};
ghost use Rattle.sheet.specs.views.NoteArray.{took_as, TookWithin};
ghost use Rattle.sheet.specs.views.NotesBehind.{leaf_held, pattern_held, row_held};
ghost use Rattle.marks.specs.views.Marks.{marked, marks_in};

use crate::set::mark;
use patterns::PatternRecord;
use records::Refusal;
use sheet::Took;
use sheet::rule::noted;

// A record that is no compound: question 7, then 8.
fn leaf(
    what: PatternRecord,
    place: usize,
    n: usize,
    notes: &mut [u64; 680],
    words: &mut [u64; 11],
) -> Result<Took, Refusal>
    requires { (n ≤ place) × (place < 680) × (length notes.old ≡ 680) × (length words.old ≡ 11) }
    ensures result_after { took_as (marks_in words.new notes.new) result
        ≡ leaf_held marked place (marks_in words.old notes.old n) what }
    ensures took_within { TookWithin (record_bytes what) (n + 1) notes.new result × (length words.new ≡ 11) }
{
    match what {
        PatternRecord::Anything => Ok(Took { bytes: 1, notes: n }),
        PatternRecord::Symbol(_) => {
            mark(words, place);
            Ok(Took { bytes: 3, notes: n })
        }
        PatternRecord::Range(low, high) | PatternRecord::Series(low, high) => {
            if high < low {
                return Err(Refusal::LowAboveHigh);
            }
            mark(words, place);
            Ok(Took { bytes: 5, notes: n })
        }
        PatternRecord::Compound(_, _) => Err(Refusal::PatternTooDeep),
        PatternRecord::Variable(v) => {
            if 15 < v {
                return Err(Refusal::NoSuchVariable);
            }
            noted(2, place, what, n, notes)
        }
        PatternRecord::Ranged(v, low, high) => {
            if high < low {
                return Err(Refusal::LowAboveHigh);
            }
            if 15 < v {
                return Err(Refusal::NoSuchVariable);
            }
            noted(6, place, what, n, notes)
        }
        PatternRecord::Gauged(_, low, high) => {
            if high < low {
                return Err(Refusal::LowAboveHigh);
            }
            mark(words, place);
            Ok(Took { bytes: 6, notes: n })
        }
    }
}

// The pattern that the input begins with, at a place with so many levels below it. Its variables begin at note n.
#[cycle(pattern_patterns)]
fn pattern(
    s: &[u8],
    below: usize,
    place: usize,
    n: usize,
    notes: &mut [u64; 680],
    words: &mut [u64; 11],
) -> Result<Took, Refusal>
    requires { (below < 4) × (place + stride (suc below) ≤ 680) × (n ≤ place) × (length notes.old ≡ 680)
        × (length words.old ≡ 11) }
    ensures result_after { took_as (marks_in words.new notes.new) result
        ≡ pattern_held marked below place (marks_in words.old notes.old n) s.now }
    ensures took_within { TookWithin (length s.now) (place + stride (suc below)) notes.new result
        × (length words.new ≡ 11) }
{
    let what = patterns::pattern_head(s)?;
    let PatternRecord::Compound(_, arity) = what else {
        return leaf(what, place, n, notes, words);
    };
    if below == 0 {
        return Err(Refusal::PatternTooDeep);
    }
    if arity < 1 || 4 < arity {
        return Err(Refusal::PatternArity);
    }
    mark(words, place);
    let arguments = patterns(
        &s[4..],
        below - 1,
        arity as usize,
        place + 1,
        n,
        notes,
        words,
    )?;
    Ok(Took {
        bytes: 4 + arguments.bytes,
        notes: arguments.notes,
    })
}

// The count patterns that the input begins with, the first at a place, each with so many levels below it.
#[cycle(pattern_patterns)]
fn patterns(
    s: &[u8],
    below: usize,
    count: usize,
    place: usize,
    n: usize,
    notes: &mut [u64; 680],
    words: &mut [u64; 11],
) -> Result<Took, Refusal>
    requires { (below < 4) × (place + count * stride (suc below) ≤ 680) × (n ≤ place) × (length notes.old ≡ 680)
        × (length words.old ≡ 11) }
    ensures result_after { took_as (marks_in words.new notes.new) result
        ≡ row_held marked below count place (marks_in words.old notes.old n) s.now }
    ensures took_within { TookWithin (length s.now) (place + count * stride (suc below)) notes.new result
        × (length words.new ≡ 11) }
{
    let step = places::step(3 - below);
    let mut at: usize = 0;
    let mut here = place;
    let mut made = n;
    for _ in 0..count {
        let read = pattern(&s[at..], below, here, made, notes, words)?;
        at += read.bytes;
        here += step;
        made = read.notes;
    }
    Ok(Took {
        bytes: at,
        notes: made,
    })
}

// The patterns of the rule that the input begins with, of so many arguments. Not a variable's place marked as that of a symbol,
// nor the notes of the rule before.
pub fn read_marks(
    s: &[u8],
    arity: usize,
    notes: &mut [u64; 680],
    words: &mut [u64; 11],
) -> Result<Took, Refusal>
    requires { (arity ≤ 8) × (length notes.old ≡ 680) × (length words.old ≡ 11) }
    ensures result_after { took_as (marks_in words.new notes.new) result
        ≡ row_held marked 3 arity 0 (marks_in words.old notes.old 0) s.now }
    ensures took_within { TookWithin (length s.now) 680 notes.new result × (length words.new ≡ 11) }
{
    patterns(&s[0..], 3, arity, 0, 0, notes, words)
}
