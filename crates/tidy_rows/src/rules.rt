// The tidy form of a rule, record by record.
ghost use Rattle.std.specs.Prelude.{◌≡◌, [], ◌∷◌, ◌+◌, ◌≤◌, length};
ghost use Rattle.records.specs.Fields.{wide_then};
ghost use Rattle.records.specs.Writing.{splice};
ghost use Rattle.patterns.specs.views.PatternRecord.{series_record, gauged_record, record_spelling, records_spelling};
ghost use Rattle.rule_rows.specs.views.Row.{records_from, Going};
ghost use Rattle.tidy_rows.specs.views.TidyRow.{tidy_word, tidy_in, tidy_spelling, tidy_onward};

use crate::Moved;
use patterns::PatternRecord;
use rule_rows::words::Words;
use rule_rows::{Row, next_record, number_record, record_length};

// What a variable becomes: anything or its range where it stands once, else itself by its new number, with its common range if any.
fn tidy_variable(word: u64) -> PatternRecord
    ensures { result ≡ tidy_word word }
{
    let number = (word / 0x8_0000_0000 % 256) as u8;
    let low = (word % 0x1_0000) as u16;
    let high = (word / 0x1_0000 % 0x1_0000) as u16;
    let ranged = word / 0x1_0000 % 0x2_0000 != 0x1_0000;
    if word / 0x2_0000_0000 % 4 < 2 {
        if ranged {
            return PatternRecord::Range(low, high);
        }
        return PatternRecord::Anything;
    }
    if ranged {
        return PatternRecord::Ranged(number, low, high);
    }
    PatternRecord::Variable(number)
}

// What a series becomes: a symbol where its ends are equal.
fn tidy_series(low: u16, high: u16) -> PatternRecord
    ensures { result ≡ series_record low high }
{
    if low == high {
        return PatternRecord::Symbol(low);
    }
    PatternRecord::Series(low, high)
}

// What a range on a gauge becomes: a range where the gauge is 0.
fn tidy_gauged(gauge: u8, low: u16, high: u16) -> PatternRecord
    ensures { result ≡ gauged_record gauge low high }
{
    if gauge == 0 {
        return PatternRecord::Range(low, high);
    }
    PatternRecord::Gauged(gauge, low, high)
}

// What a record becomes: only a series of one symbol changes, a range on gauge 0, and a variable's, at each of its places.
fn tidy_record(what: PatternRecord, words: &Words) -> PatternRecord
    requires { length words.now ≡ 16 }
    ensures { result ≡ tidy_in words.now what }
{
    match what {
        PatternRecord::Anything => what,
        PatternRecord::Symbol(_) => what,
        PatternRecord::Series(low, high) => tidy_series(low, high),
        PatternRecord::Range(_, _) => what,
        PatternRecord::Gauged(gauge, low, high) => tidy_gauged(gauge, low, high),
        PatternRecord::Compound(_, _) => what,
        PatternRecord::Variable(v) => tidy_variable(words[(v % 16) as usize]),
        PatternRecord::Ranged(v, _, _) => tidy_variable(words[(v % 16) as usize]),
    }
}

// A record of a kind byte and two ends.
fn put_ends(buf: &mut [u8], at: usize, kind: u8, low: u16, high: u16) -> usize
    requires { at + 5 ≤ length buf.old }
    ensures { (result ≡ at + 5) × (buf.new ≡ splice buf.old at (kind ∷ wide_then low (wide_then high []))) }
{
    records::put(
        buf,
        at,
        &[
            kind,
            records::high(low),
            records::low(low),
            records::high(high),
            records::low(high),
        ],
    )
}

// A record of a kind byte, another byte and two ends.
fn put_byte_and_ends(buf: &mut [u8], at: usize, kind: u8, byte: u8, low: u16, high: u16) -> usize
    requires { at + 6 ≤ length buf.old }
    ensures { (result ≡ at + 6)
        × (buf.new ≡ splice buf.old at (kind ∷ byte ∷ wide_then low (wide_then high []))) }
{
    records::put(
        buf,
        at,
        &[
            kind,
            byte,
            records::high(low),
            records::low(low),
            records::high(high),
            records::low(high),
        ],
    )
}

// A record in the part of a buffer that begins at a position, and the position behind it. Not the low byte of a field first, nor a
// byte changed behind the record.
fn put_record(buf: &mut [u8], at: usize, what: PatternRecord) -> usize
    requires { at + length (record_spelling what) ≤ length buf.old }
    ensures { (result ≡ at + length (record_spelling what))
        × (buf.new ≡ splice buf.old at (record_spelling what)) }
{
    match what {
        PatternRecord::Anything => records::put(buf, at, &[0x20]),
        PatternRecord::Symbol(a) => records::put(
            buf,
            at,
            &[0x21, records::high(a), records::low(a)],
        ),
        PatternRecord::Series(l, h) => put_ends(buf, at, 0x26, l, h),
        PatternRecord::Range(l, h) => put_ends(buf, at, 0x22, l, h),
        PatternRecord::Gauged(g, l, h) => put_byte_and_ends(buf, at, 0x27, g, l, h),
        PatternRecord::Compound(a, n) => records::put(
            buf,
            at,
            &[0x23, records::high(a), records::low(a), n],
        ),
        PatternRecord::Variable(v) => records::put(buf, at, &[0x24, v]),
        PatternRecord::Ranged(v, l, h) => put_byte_and_ends(buf, at, 0x25, v, l, h),
    }
}

// How far a rule reaches, and how many bytes its tidy form has: not those that the rule has.
pub fn measure_rule(s: &[u8], start: Row, words: &Words) -> Moved
    requires { Going s.now start × (start.most ≤ 680) × (length words.now ≡ 16) }
    ensures value { result ≡ record {
      from = start.at + length (records_spelling (records_from s.now start));
      to = length (tidy_spelling words.now (records_from s.now start));
    } }
    ensures from_in_bounds { (result.from ≤ length s.now) × (result.to ≤ 4080) }
{
    let mut row = start;
    let mut size: usize = 0;
    while let Some(next) = next_record(s, row) {
        size += record_length(tidy_record(next.what, words));
        row = next.rest;
    }
    Moved {
        from: row.at,
        to: size,
    }
}

// The tidy form of a rule in a buffer that has room for it, from a position on; how far the rule reaches, and the position behind
// what was written. Repeated variables are numbered from 0 as they first come: not by their old numbers. Not a byte changes in
// front of the rule or behind.
pub fn put_rule(s: &[u8], start: Row, words: &mut Words, buf: &mut [u8], to: usize) -> Moved
    requires { Going s.now start × (start.most ≤ 680) × (length words.now ≡ 16)
        × (to + length (tidy_onward (record { words = words.now; count = 0 }) (records_from s.now start)) ≤ length buf.old) }
    ensures value { result ≡ record {
      from = start.at + length (records_spelling (records_from s.now start));
      to = to + length (tidy_onward (record { words = words.entry.now; count = 0 }) (records_from s.now start));
    } }
    ensures buf_after { buf.new ≡ splice buf.old to
        (tidy_onward (record { words = words.entry.now; count = 0 }) (records_from s.now start)) }
    ensures from_in_bounds { result.from ≤ length s.now }
{
    let mut row = start;
    let mut end = to;
    let mut count: u64 = 0;
    while let Some(next) = next_record(s, row) {
        count = number_record(next.what, count, words);
        end = put_record(buf, end, tidy_record(next.what, words));
        row = next.rest;
    }
    Moved {
        from: row.at,
        to: end,
    }
}
