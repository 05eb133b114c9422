// The pairs of places that rules test for equality.
#![tactic(auto)]

pub mod kept; // pairs of places, kept ascending
pub mod rule; // the pairs of a rule

// How many pairs are kept; the last one that was put, and how many of those kept are not above it.
#[derive(Clone, Copy)]
pub struct Put {
    pub count: usize,
    pub next: usize,
    pub last: u32,
}
