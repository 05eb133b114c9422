// The nodes of a graph written as records (document 01, "Records", "Graph"), in the order of their keys.
#![tactic(auto)]

pub mod node; // one node
pub mod row; // the header and all nodes
