// The record that a pattern begins with: question 4.
ghost use Rattle.std.specs.Prelude.{◌≡◌};
ghost use Rattle.patterns.specs.views.PatternRecord.{pattern_head, ends_head, id_head};

use crate::PatternRecord;
use records::Refusal;

// Two ends that the input begins with: of a range of numbers or a series of symbols, or, where the kind is odd, behind one byte
// more, of a ranged variable or a range on a gauge.
fn ends_head(s: &[u8], kind: u8) -> Result<PatternRecord, Refusal>
    ensures { result ≡ ends_head kind s.now }
{
    let at = (kind % 2) as usize + 1;
    if s.len() < at + 4 {
        return Err(Refusal::NotAPattern);
    }
    let low = records::wide(s[at], s[at + 1]);
    let high = records::wide(s[at + 2], s[at + 3]);
    let first = s[1];
    let record = match kind {
        0x22 => PatternRecord::Range(low, high),
        0x25 => PatternRecord::Ranged(first, low, high),
        0x26 => PatternRecord::Series(low, high),
        _ => PatternRecord::Gauged(first, low, high),
    };
    Ok(record)
}

// An id that the input begins with: of a compound, with its arity, or of a symbol.
fn id_head(s: &[u8], compound: bool) -> Result<PatternRecord, Refusal>
    ensures { result ≡ id_head compound s.now }
{
    match s {
        [_, high, low, arity, ..] if compound => {
            Ok(PatternRecord::Compound(records::wide(*high, *low), *arity))
        }
        [_, high, low, ..] if !compound => Ok(PatternRecord::Symbol(records::wide(*high, *low))),
        _ => Err(Refusal::NotAPattern),
    }
}

// The record of a pattern that the input begins with: question 4. A cut record is never whole, and kind 28 is no pattern. Kinds of
// one shape share an arm: those with an id, and those with two ends, the rest.
pub fn pattern_head(s: &[u8]) -> Result<PatternRecord, Refusal>
    ensures { result ≡ pattern_head s.now }
{
    let [kind, rest @ ..] = s else {
        return Err(Refusal::NotAPattern);
    };
    match *kind {
        0x20 => Ok(PatternRecord::Anything),
        0x21 | 0x23 => id_head(s, *kind == 0x23),
        0x24 => match rest {
            [variable, ..] => Ok(PatternRecord::Variable(*variable)),
            [] => Err(Refusal::NotAPattern),
        },
        0..=0x1f | 0x28..=255 => Err(Refusal::NotAPattern),
        _ => ends_head(s, *kind),
    }
}
