// Where the edges of a node lead (document 01, "Nodes"): the live rules and pending tests that each edge leaves.
#![tactic(auto)]

pub mod keys; // the keys behind the edges

// "A node's key is its live rules and its pending tests"
#[derive(Clone, Copy)]
pub struct Key {
    pub live: u64,
    pub pending: u64,
}

// What all edges of a node share that asks a test: its live rules, those without the test, the tests left but this one, and the
// live rules that have none of these.
#[derive(Clone, Copy)]
pub struct Asked {
    pub test: usize,
    pub live: u64,
    pub free: u64,
    pub left: u64,
    pub settled: u64,
}
