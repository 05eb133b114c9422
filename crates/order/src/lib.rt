// The reading order of the owner's machine (document 02, request 1): a loaded table of 680 places.
#![tactic(auto)]

pub mod table; // questions 28 to 30

pub use table::{check_order, read_table};
