// The number cases of a switch, searched by halves: a row of records of 8 bytes each, in the order of their lows, then highs.
#![tactic(auto)]

pub mod names; // where the number cases of a switch begin
pub mod numbers; // the narrowest case of a row that takes the codes of a number or span
