// Text into a lent output, with its count: a byte is stored where there is room for it, and counted everywhere. So with no output
// a text is counted only. Each method moves the count past what it put.
#![tactic(auto)]

pub mod number;
pub mod text;
