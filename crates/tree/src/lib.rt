// Trees in words: what stands at a mark, the shape of a mark list, and the tests with which a call that is lent a source and a
// tree begins.
#![tactic(auto)]

mod check;
pub mod marks;
mod models;
pub mod test;
