// What a suspended piece waits for: the tests met that are not known and, where a span is met, those that are not known for a rule
// live there.
#![tactic(auto)]

pub mod list; // the list of a suspended piece
pub mod open; // the tests met that are not known
pub mod rules; // what the rules of a sheet add
pub mod spans; // the spans that are met, and the numbers of the tests

// What is read of a sheet before its rules: how many arguments and how many rules it has.
#[derive(Clone, Copy)]
pub struct Shape {
    pub arity: usize,
    pub rules: u8,
}
