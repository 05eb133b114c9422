// Where the rules of a sheet begin, noted once, so that one rule is read again and not all before it.
ghost use Rattle.std.specs.Prelude.{◌≤◌, ◌≡◌, length};
ghost use Rattle.sheet.specs.ReadSheet.{read_rules};
ghost use Rattle.graph.specs.views.Rewriting.{IsTook};
ghost use Rattle.rule_masks.specs.views.Kept.{TestsStay};
ghost use Rattle.leaves.specs.views.Seeking.{Begins, begin_of, noted_in, passed_by};

use sheet::read_rule;
use tables::Tables;

// Where a rule, from 1, begins; 0 where that is not noted. Not where the rule after it begins.
pub fn begin_of(kept: &Tables, rule: u8) -> usize
    requires { 1 ≤ rule }
    ensures { result ≡ begin_of kept.now rule }
{
    if rule < 65 {
        return kept[67 + rule as usize] as usize;
    }
    0
}

// The tables with the begin of one more rule, from 0. Not at the place of another rule.
fn note(kept: &mut Tables, i: usize, at: usize)
    requires { length kept.old ≡ 324 }
    ensures { (kept.new ≡ noted_in kept.old i at) × (length kept.new ≡ 324) }
{
    if i < 64 {
        kept[68 + i] = at as u64;
    }
}

// Notes where the rules, so many, begin that the input begins with; the tests stay. Not where a rule before it begins, nor where
// it ends.
pub fn rule_begins(s: &[u8], arity: usize, count: u8, notes: &mut [u64; 680], kept: &mut Tables)
    requires { (arity ≤ 8) × IsTook (read_rules arity count s.now) × (length notes.old ≡ 680)
        × (length kept.old ≡ 324) × Begins s.now arity count kept.old }
    ensures { Begins s.now arity count kept.new
        × TestsStay kept.old kept.new × (length notes.new ≡ 680) }
{
    let mut at: usize = 0;
    for i in 0..count {
        note(kept, i as usize, at);
        let Ok(read) = read_rule(&s[at..], arity, notes) else {
            return;
        };
        at += read.bytes;
    }
}

// How many rules are passed where the search for one starts at its begin, none where that is not noted. Not the rule itself too,
// nor the rules before it where the search starts with the first.
pub fn passed(begin: usize, rule: u8) -> u8
    requires { 1 ≤ rule }
    ensures { result ≡ passed_by begin rule }
{
    if begin == 0 {
        return 0;
    }
    rule - 1
}
