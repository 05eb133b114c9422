// The walk over the bytes of a graph.
#![tactic(auto)]

pub mod call; // the walk of a piece over a graph
pub mod leaf; // the answer at an execute of a rule

use plain::Answer;

// What a walk answers, with the edges walked and the set of tests that it waits for.
#[derive(Clone, Copy)]
pub struct Walk {
    pub answer: Answer,
    pub edges: u8,
    pub waits: u64,
}

// What was read once of a sheet and a graph: arity, rules, pairs among the tests, and nodes, 0 while no graph was read.
#[derive(Clone, Copy)]
pub struct Sizes {
    pub arity: u8,
    pub rules: u8,
    pub pairs: usize,
    pub nodes: u16,
}
