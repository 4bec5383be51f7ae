// The parser: a file is read, entry by entry, into marks and errors.
#![tactic(auto)]

mod junk;
mod layout;
mod list;
mod marks;
pub mod next;
pub mod read;
mod resource;
