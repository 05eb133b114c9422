// Writes sheets in their tidy form.
#![tactic(auto)]

pub mod sheets; // the tidy form of a sheet

pub use sheets::tidy;
