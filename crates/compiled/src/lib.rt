// An accepted sheet as tables: of each rule the set of its tests, of each test the set of its rules, and the cuts of each place
// test.
#![tactic(auto)]

pub mod cut; // where a rule turns
pub mod rules; // the tables of all rules

pub use rules::table_rules;
