// Reads the records of nodes and of their cases.
#![tactic(auto)]

pub mod record; // the record that the input begins with

pub use record::{case_head, node_head};

// How many bytes a switch's record has, its cases not counted.
pub const SWITCH_BYTES: usize = 9;

// A node at which a walk ends.
#[derive(Clone, Copy)]
pub enum Leaf {
    Fail,
    Suspend,
    Execute(u8),
}

// A node's record. The cases of a switch follow it and are read one at a time.
#[derive(Clone, Copy)]
pub enum NodeRecord {
    End(Leaf),
    Switch(u16, u16, u16, u16),
    Pair(u16, u16, u16, u16),
}

// A case's record, with the node that it leads to, and of numbers their gauge.
#[derive(Clone, Copy)]
pub enum CaseRecord {
    Symbols(u16, u16, u16),
    Compound(u16, u8, u16),
    Numbers(u16, u16, u16, u8),
}
