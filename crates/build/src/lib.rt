// Builds the graph of rules whose tests are listed, in a lent buffer.
#![tactic(auto)]

pub mod graph_of; // from rules to the graph's bytes

// A built graph: its nodes, and its bytes at the front of the buffer.
#[derive(Clone, Copy)]
pub struct Built {
    pub nodes: u16,
    pub bytes: u32,
}
