// The records of a rule, one after another.
ghost use Rattle.std.specs.Prelude.{◌≡◌, ◌≤◌};
ghost use Rattle.patterns.specs.views.PatternRecord.{record_bytes};
ghost use Rattle.rule_rows.specs.views.Row.{arguments_of, records_from, records_with, Going, GoesOn};

use crate::{Next, Row};
use patterns::PatternRecord;

// How many bytes a record has: its kind byte counts.
pub fn record_length(what: PatternRecord) -> usize
    ensures { result ≡ record_bytes what }
{
    match what {
        PatternRecord::Anything => 1,
        PatternRecord::Symbol(_) => 3,
        PatternRecord::Series(_, _) => 5,
        PatternRecord::Range(_, _) => 5,
        PatternRecord::Gauged(_, _, _) => 6,
        PatternRecord::Compound(_, _) => 4,
        PatternRecord::Variable(_) => 2,
        PatternRecord::Ranged(_, _, _) => 6,
    }
}

// How many patterns follow a record as its arguments.
fn arguments(what: PatternRecord) -> usize
    ensures { (result ≡ arguments_of what) × (result ≤ 255) }
{
    match what {
        PatternRecord::Anything => 0,
        PatternRecord::Symbol(_) => 0,
        PatternRecord::Series(_, _) => 0,
        PatternRecord::Range(_, _) => 0,
        PatternRecord::Gauged(_, _, _) => 0,
        PatternRecord::Compound(_, n) => n as usize,
        PatternRecord::Variable(_) => 0,
        PatternRecord::Ranged(_, _, _) => 0,
    }
}

// The next record of a row, and where the row goes on; none at its end. Not a compound whose arguments are left out, nor a record
// of the next rule.
pub fn next_record(s: &[u8], row: Row) -> Option<Next>
    requires { Going s.now row }
    ensures row_value { records_from s.now row ≡ records_with s.now result }
    ensures goes_on { GoesOn s.now row result }
{
    let at = row.at;
    if row.most == 0 || row.patterns == 0 {
        return None;
    }
    let Ok(what) = patterns::pattern_head(&s[at..]) else {
        return None;
    };
    let rest = Row {
        at: at + record_length(what),
        patterns: row.patterns - 1 + arguments(what),
        most: row.most - 1,
    };
    Some(Next { what, rest })
}
