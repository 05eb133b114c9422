// What happens at a node of a graph: which edge a piece takes there.
#![tactic(auto)]

pub mod cases; // where the cases of a switch lead
pub mod node; // the step at a node

use graph::Leaf;

// What happens at a node: the walk ends at a leaf; it goes on to a node, from a node that asks the test with this code; or question
// 27 gets a no.
#[derive(Clone, Copy)]
pub enum Step {
    Stop(Leaf),
    GoTo(u16, u32),
    NoWay,
}
