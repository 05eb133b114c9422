// The numbering of a graph's nodes (document 01, "Nodes"): what a key's node is, the keys behind its edges, and all keys of a
// graph.
#![tactic(auto)]

use graph::Leaf;

pub mod expand; // the edges of one node
pub mod grow; // all keys of the graph, and its size
pub mod node; // what a key's node is

// What a node is: a leaf, or the test that it asks.
#[derive(Clone, Copy)]
pub enum Kind {
    End(Leaf),
    Ask(usize),
}
