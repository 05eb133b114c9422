// Checks the nodes of graphs.
#![tactic(auto)]

pub mod cases; // the cases of a switch
pub mod check; // the nodes of a graph
pub mod kept; // the sheet's tests as they are kept

pub use cases::check_cases;
pub use check::check_nodes;

// A case as a range of codes, with the number that the next case's rank must exceed, the node that it leads to and the bytes of its
// record.
#[derive(Clone, Copy)]
pub struct CaseRange {
    pub first: u32,
    pub last: u32,
    pub end: u64,
    pub node: u16,
    pub bytes: usize,
}

// What the cases of a switch are: so many bytes, whether all their nodes are in range, whether they ascend.
#[derive(Clone, Copy)]
pub struct CasesFound {
    pub bytes: usize,
    pub inside: bool,
    pub ascend: bool,
}
