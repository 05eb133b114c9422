// Notes of a rule's records as numbers.
ghost use Rattle.std.specs.Prelude.{◌≡◌, ◌<◌};
ghost use Rattle.patterns.specs.views.Note.{note};
ghost use Rattle.patterns.specs.views.NoteCode.{packed_note, note_code, note_of};

use crate::PatternRecord;

// The parts of a note as one number.
fn pack(place: usize, kind: u8, byte: u8, first: u16, second: u16) -> u64
    requires { place < 680 }
    ensures { result ≡ packed_note place kind byte first second }
{
    let head = (place as u64 * 8 + kind as u64) * 256 + byte as u64;
    (head * 0x1_0000 + first as u64) * 0x1_0000 + second as u64
}

// The number of a note: of a record at its place. Notes that differ have numbers that differ, so neither the place nor
// the kind may be left out.
pub fn note_code(place: usize, what: PatternRecord) -> u64
    requires { place < 680 }
    ensures { result ≡ note_code (note place what) }
{
    match what {
        PatternRecord::Anything => pack(place, 0, 0, 0, 0),
        PatternRecord::Symbol(a) => pack(place, 1, 0, a, 0),
        PatternRecord::Range(low, high) => pack(place, 2, 0, low, high),
        PatternRecord::Compound(a, arity) => pack(place, 3, 0, a, arity as u16),
        PatternRecord::Variable(v) => pack(place, 4, v, 0, 0),
        PatternRecord::Ranged(v, low, high) => pack(place, 5, v, low, high),
        PatternRecord::Series(low, high) => pack(place, 6, 0, low, high),
        PatternRecord::Gauged(gauge, low, high) => pack(place, 7, gauge, low, high),
    }
}

// The place of a note, from its number: not the next place, and nothing of the record.
pub fn note_place(code: u64) -> usize
    ensures { result ≡ (note_of code).place }
{
    (code / 0x800_0000_0000) as usize
}

// The record of a note, from its number: its own kind, and its fields in their order.
#[tactic(auto, unfolding(crate::specs::views::NoteCode::code_record))]
pub fn note_record(code: u64) -> PatternRecord
    ensures { result ≡ (note_of code).what }
{
    let kind = code / 0x100_0000_0000 % 8;
    let variable = (code / 0x1_0000_0000 % 16) as u8;
    let gauge = (code / 0x1_0000_0000 % 256) as u8;
    let first = (code / 0x1_0000 % 0x1_0000) as u16;
    let second = (code % 0x1_0000) as u16;
    match kind {
        1 => PatternRecord::Symbol(first),
        2 => PatternRecord::Range(first, second),
        3 => PatternRecord::Compound(first, (code % 256) as u8),
        4 => PatternRecord::Variable(variable),
        5 => PatternRecord::Ranged(variable, first, second),
        6 => PatternRecord::Series(first, second),
        7 => PatternRecord::Gauged(gauge, first, second),
        _ => PatternRecord::Anything,
    }
}
