// What becomes of each variable of a rule.
ghost use Rattle.std.specs.Prelude.{◌≡◌, ◌+◌, ◌≤◌, length};
ghost use Rattle.rule_rows.specs.views.Row.{records_from, Going};
ghost use Rattle.rule_rows.specs.views.Words.{met_word, met_at, met_record, met_records};
ghost use Rattle.rule_rows.specs.views.Words.{numbered_at, number_record};

use crate::Row;
use crate::rows::next_record;
use patterns::PatternRecord;

// What is known of each of the 16 variables of a rule.
pub type Words = [u64; 16];

// What is known of a variable that stands once more, with a range: the common part, and not the last range.
fn met(word: u64, low: u16, high: u32) -> u64
    ensures { result ≡ met_word word low high }
{
    let uses = (word / 0x2_0000_0000 % 4 + 1).min(2);
    let most = (word / 0x1_0000 % 0x2_0000).min(high as u64);
    let least = (word % 0x1_0000).max(low as u64);
    (uses * 0x2_0000 + most) * 0x1_0000 + least
}

// One more place of a variable.
fn meet_variable(v: u8, low: u16, high: u32, words: &mut Words)
    requires { length words.old ≡ 16 }
    ensures words_after { words.new ≡ met_at words.old v low high }
    ensures words_len { length words.new ≡ 16 }
{
    let i = (v % 16) as usize;
    words[i] = met(words[i], low, high);
}

// One more record.
fn meet_record(what: PatternRecord, words: &mut Words)
    requires { length words.old ≡ 16 }
    ensures words_after { words.new ≡ met_record words.old what }
    ensures words_len { length words.new ≡ 16 }
{
    match what {
        PatternRecord::Anything => {}
        PatternRecord::Symbol(_) => {}
        PatternRecord::Series(_, _) => {}
        PatternRecord::Range(_, _) => {}
        PatternRecord::Gauged(_, _, _) => {}
        PatternRecord::Compound(_, _) => {}
        PatternRecord::Variable(v) => meet_variable(v, 0, 0x1_0000, words),
        PatternRecord::Ranged(v, low, high) => meet_variable(v, low, high as u32, words),
    }
}

// What is known of the variables behind a row of records: how often each stands, and the common part of its ranges. Not a range of
// one place only, nor that of another variable.
pub fn meet_row(s: &[u8], start: Row, words: &mut Words)
    requires { Going s.now start × (length words.old ≡ 16) }
    ensures words_after { words.new ≡ met_records words.old (records_from s.now start) }
    ensures words_len { length words.new ≡ 16 }
{
    let mut row = start;
    while let Some(next) = next_record(s, row) {
        meet_record(next.what, words);
        row = next.rest;
    }
}

// The next number for a variable that is repeated and has none yet; how many are given then.
fn number_variable(v: u8, count: u64, words: &mut Words) -> u64
    requires { (length words.old ≡ 16) × (count ≤ 680) }
    ensures result_value { record { words = words.exit.now; count = result }
        ≡ numbered_at v (record { words = words.entry.now; count = count }) }
    ensures words_len { (length words.new ≡ 16) × (result ≤ count + 1) }
{
    let i = (v % 16) as usize;
    let word = words[i];
    if word / 0x2_0000_0000 != 2 {
        return count;
    }
    words[i] = word + (count * 4 + 1) * 0x2_0000_0000;
    count + 1
}

// The same for the variable of a record. Not a number for a variable that stands once, nor another one at its second place.
pub fn number_record(what: PatternRecord, count: u64, words: &mut Words) -> u64
    requires { (length words.old ≡ 16) × (count ≤ 680) }
    ensures result_value { record { words = words.exit.now; count = result }
        ≡ number_record what (record { words = words.entry.now; count = count }) }
    ensures words_len { (length words.new ≡ 16) × (result ≤ count + 1) }
{
    match what {
        PatternRecord::Anything => count,
        PatternRecord::Symbol(_) => count,
        PatternRecord::Series(_, _) => count,
        PatternRecord::Range(_, _) => count,
        PatternRecord::Gauged(_, _, _) => count,
        PatternRecord::Compound(_, _) => count,
        PatternRecord::Variable(v) => number_variable(v, count, words),
        PatternRecord::Ranged(v, _, _) => number_variable(v, count, words),
    }
}
