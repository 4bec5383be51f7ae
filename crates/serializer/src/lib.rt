// The serializer: a tree's marks are written as normal text.
#![tactic(auto)]

mod message;
mod resource;
mod serializer;
mod walk;
pub mod write;
mod writer;
