// The patterns of a rule, read in prefix order into an array of notes: questions 4 to 9.
ghost use Rattle.std.specs.Prelude.{◌≡◌, [], ◌∷◌, ◌++◌, suc, ◌+◌, ◌*◌, ◌≤◌, ◌<◌, length};
ghost use Rattle.places.specs.Numbering.{stride};
ghost use Rattle.records.specs.Reading.{took, map_reading};
ghost use Rattle.patterns.specs.views.PatternRecord.{record_bytes};
ghost use Rattle.sheet.specs.ReadSheet.{read_rule};
ghost use Rattle.patterns.specs.views.Note.{note};
ghost use Rattle.sheet.specs.views.Noted.{rule_notes};
ghost use Rattle.patterns.specs.views.NoteCode.{Fitting};
ghost use Rattle.sheet.specs.views.NoteArray.{notes_in, took_notes, TookWithin};
ghost use Rattle.sheet.specs.views.NotesBehind.{leaf_held, pattern_held, row_held, behind};

use crate::Took;
use crate::variable::common;
use patterns::PatternRecord;
use patterns::note::note_code;
use patterns::record::pattern_head;
use records::Refusal;

// Notes a record at its place as note n.
#[tactic(auto, using(crate::proofs::NoteArrays::notes_put))]
fn put(place: usize, what: PatternRecord, n: usize, notes: &mut [u64; 680])
    requires { (place < 680) × Fitting what × (n < 680) × (length notes.old ≡ 680) }
    ensures n_after { notes_in notes.new (n + 1) ≡ notes_in notes.old n ++ (note place what ∷ []) }
    ensures notes_len { length notes.new ≡ 680 }
{
    notes[n] = note_code(place, what);
}

// Notes a record at its place as note n, where it took so many bytes. Not over a note made before, nor at the next place.
pub fn noted(
    bytes: usize,
    place: usize,
    what: PatternRecord,
    n: usize,
    notes: &mut [u64; 680],
) -> Result<Took, Refusal>
    requires { (place < 680) × Fitting what × (n < 680) × (length notes.old ≡ 680) }
    ensures result_after { took_notes notes.new result ≡ took bytes (notes_in notes.old n ++ (note place what ∷ [])) }
    ensures took_within { TookWithin bytes (n + 1) notes.new result }
{
    put(place, what, n, notes);
    Ok(Took {
        bytes,
        notes: n + 1,
    })
}

// A record that is no compound, or a compound with no level below it: question 5, then 7 and 8.
fn leaf(
    what: PatternRecord,
    place: usize,
    n: usize,
    notes: &mut [u64; 680],
) -> Result<Took, Refusal>
    requires { (n ≤ place) × (place < 680) × (length notes.old ≡ 680) }
    ensures result_after { took_notes notes.new result ≡ leaf_held behind place (notes_in notes.old n) what }
    ensures took_within { TookWithin (record_bytes what) (n + 1) notes.new result }
{
    match what {
        PatternRecord::Anything => Ok(Took { bytes: 1, notes: n }),
        PatternRecord::Symbol(_) => noted(3, place, what, n, notes),
        PatternRecord::Range(low, high) | PatternRecord::Series(low, high) => {
            if high < low {
                return Err(Refusal::LowAboveHigh);
            }
            noted(5, place, what, n, notes)
        }
        PatternRecord::Compound(_, _) => Err(Refusal::PatternTooDeep),
        PatternRecord::Variable(v) => {
            if 15 < v {
                return Err(Refusal::NoSuchVariable);
            }
            noted(2, place, what, n, notes)
        }
        PatternRecord::Ranged(v, low, high) => {
            if high < low {
                return Err(Refusal::LowAboveHigh);
            }
            if 15 < v {
                return Err(Refusal::NoSuchVariable);
            }
            noted(6, place, what, n, notes)
        }
        PatternRecord::Gauged(_, low, high) => {
            if high < low {
                return Err(Refusal::LowAboveHigh);
            }
            noted(6, place, what, n, notes)
        }
    }
}

// The pattern that the input begins with, at a place with so many levels below it. Its notes begin at note n.
#[cycle(pattern_patterns)]
fn pattern(
    s: &[u8],
    below: usize,
    place: usize,
    n: usize,
    notes: &mut [u64; 680],
) -> Result<Took, Refusal>
    requires { (below < 4) × (place + stride (suc below) ≤ 680) × (n ≤ place) × (length notes.old ≡ 680) }
    ensures result_after { took_notes notes.new result
        ≡ pattern_held behind below place (notes_in notes.old n) s.now }
    ensures took_within { TookWithin (length s.now) (place + stride (suc below)) notes.new result }
{
    let what = pattern_head(s)?;
    let PatternRecord::Compound(_, arity) = what else {
        return leaf(what, place, n, notes);
    };
    if below == 0 {
        return Err(Refusal::PatternTooDeep);
    }
    if arity < 1 || 4 < arity {
        return Err(Refusal::PatternArity);
    }
    put(place, what, n, notes);
    let arguments = patterns(&s[4..], below - 1, arity as usize, place + 1, n + 1, notes)?;
    Ok(Took {
        bytes: 4 + arguments.bytes,
        notes: arguments.notes,
    })
}

// The count patterns that the input begins with, the first at a place, each with so many levels below it.
#[cycle(pattern_patterns)]
fn patterns(
    s: &[u8],
    below: usize,
    count: usize,
    place: usize,
    n: usize,
    notes: &mut [u64; 680],
) -> Result<Took, Refusal>
    requires { (below < 4) × (place + count * stride (suc below) ≤ 680) × (n ≤ place) × (length notes.old ≡ 680) }
    ensures result_after { took_notes notes.new result
        ≡ row_held behind below count place (notes_in notes.old n) s.now }
    ensures took_within { TookWithin (length s.now) (place + count * stride (suc below)) notes.new result }
{
    let step = places::step(3 - below);
    let mut at: usize = 0;
    let mut here = place;
    let mut made = n;
    for _ in 0..count {
        let read = pattern(&s[at..], below, here, made, notes)?;
        at += read.bytes;
        here += step;
        made = read.notes;
    }
    Ok(Took {
        bytes: at,
        notes: made,
    })
}

// The rule that the input begins with, of so many arguments: questions 4 to 9. Its notes are the first of the array. A
// rule is not cut off before its last argument, and a rule whose ranges have no number in common is refused by 9.
// The part from 0 is the input again, and quicker to hand on than the slice itself, which is copied through memory.
pub fn read_rule(s: &[u8], arity: usize, notes: &mut [u64; 680]) -> Result<Took, Refusal>
    requires { (arity ≤ 8) × (length notes.old ≡ 680) }
    ensures result_after { took_notes notes.new result ≡ map_reading rule_notes (read_rule arity s.now) }
    ensures took_within { TookWithin (length s.now) 680 notes.new result }
{
    let took = patterns(&s[0..], 3, arity, 0, 0, notes)?;
    if !common(notes, took.notes) {
        return Err(Refusal::NoCommonNumber);
    }
    Ok(took)
}
