// What is answered, and the outcome of a rule's tests.
#![tactic(auto)]

pub mod rule; // the outcome of a rule's tests

// What is answered, with the rule.
#[derive(Clone, Copy)]
pub enum Answer {
    Commit(u8),
    Execute(u8),
    Suspend,
    Fail,
}
