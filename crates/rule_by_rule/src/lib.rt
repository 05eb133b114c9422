// The plain answer by the rules of a sheet, one after another.
#![tactic(auto)]

pub mod flat; // the arguments of a rule up to its first compound, tested as they are read
pub mod rules; // the answer, rule by rule
