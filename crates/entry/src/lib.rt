// One entry: its bytes are read into marks, or into an error.
#![tactic(auto)]

pub mod border;
mod bytes;
mod comment;
mod errors;
mod expression;
mod helper;
mod marks;
mod parser;
mod parser_core;
mod pattern;
mod source;
mod string;
mod text;
