// A rule of a sheet, read for its tests.
#![tactic(auto)]

pub mod rule; // a rule read, its places marked and its variables noted
pub mod set; // a place put into a set of places

pub use rule::read_marks;
pub use set::mark;
