// The records of patterns: read, and noted as numbers.
#![tactic(auto)]

pub mod note; // notes as numbers
pub mod record; // the record that a pattern begins with

pub use note::{note_code, note_place, note_record};
pub use record::pattern_head;

// A whole record of a pattern.
#[derive(Clone, Copy)]
pub enum PatternRecord {
    Anything,
    Symbol(u16),
    Range(u16, u16),
    Compound(u16, u8),
    Variable(u8),
    Ranged(u8, u16, u16),
    Series(u16, u16),
    Gauged(u8, u16, u16),
}
