// What is answered at an execute of a rule, and where the rules of a sheet begin.
#![tactic(auto)]

pub mod begins; // where the rules begin
pub mod rule; // the answer at an execute of a rule

use plain::Answer;

// What an execute of a rule comes to: the answer, and the set of tests that it waits for.
#[derive(Clone, Copy)]
pub struct Executed {
    pub answer: Answer,
    pub waits: u64,
}
