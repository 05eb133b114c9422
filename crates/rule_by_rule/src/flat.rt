// The arguments of a rule up to its first compound, tested as they are read: most rules are contradicted there.
ghost use Rattle.std.specs.Prelude.{◌≡◌, true, ℕ, ◌≤◌};
ghost use Rattle.terms.specs.Pattern.{Patterns};
ghost use Rattle.terms.specs.Outcome.{contradicted};
ghost use Rattle.records.specs.Reading.{took};
ghost use Rattle.sheet.specs.ReadSheet.{read_patterns};
ghost use Rattle.plain.specs.views.NotesOutcome.{flat_bytes, cells_outcome};

use outcomes::TestOutcome;
use patterns::PatternRecord;
use piece::Cells;
use plain::rule::fixed_outcome;

// How many bytes a record that is no compound has; 0 for a compound.
fn flat_length(what: PatternRecord) -> usize
    ensures { result ≡ flat_bytes what }
{
    match what {
        PatternRecord::Anything => 1,
        PatternRecord::Symbol(_) => 3,
        PatternRecord::Range(_, _) => 5,
        PatternRecord::Compound(_, _) => 0,
        PatternRecord::Variable(_) => 2,
        PatternRecord::Ranged(_, _, _) => 6,
        PatternRecord::Series(_, _) => 5,
        PatternRecord::Gauged(_, _, _) => 6,
    }
}

// Is a rule, which the input begins with, contradicted at an argument up to its first compound? Not where a test is not known, nor
// at a variable.
pub fn is_out(s: &[u8], arity: usize, cells: &Cells) -> bool
    requires { arity ≤ 8 }
    ensures { result ≡ true → (b : ℕ) (rule : Patterns) → read_patterns 3 arity s.now ≡ took b rule
        → cells_outcome cells.now rule ≡ contradicted }
{
    let mut at: usize = 0;
    for i in 0..arity {
        let Ok(what) = patterns::pattern_head(&s[at..]) else {
            return false;
        };
        let one = fixed_outcome(cells, i * 85, what);
        if let TestOutcome::Contradicted = one {
            return true;
        }
        let bytes = flat_length(what);
        if bytes == 0 {
            return false;
        }
        at += bytes;
    }
    false
}
