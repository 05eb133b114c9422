// The check of a graph for a sheet, and the index of its nodes.
#![tactic(auto)]

pub mod check; // the check of a graph
pub mod index; // a graph's header, and where its nodes begin

pub use check::check_graph;
pub use index::index_graph;

// The first record of an accepted graph.
#[derive(Clone, Copy)]
pub struct GraphHeader {
    pub arity: u8,
    pub rules: u8,
    pub nodes: u16,
}
