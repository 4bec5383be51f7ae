// The types that the calls of the parser and the serializer answer with, and the numbers that they share. What is right is defined
// in specs/.
#![tactic(auto)]

pub mod answer;
pub mod errors;
pub mod kind;
pub mod layout;
pub mod limits;
pub mod next;
pub mod test;
