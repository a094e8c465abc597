// What the program `show` writes its lines with: numbers, quoted texts, leaf types and their values, and refusals in
// words.
#![tactic(auto)]

pub mod calendar;
pub mod decimal;
pub mod floats;
pub mod leaves;
pub mod out;
pub mod utf8;
pub mod words;
