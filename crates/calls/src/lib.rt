// A file cut in two, over the two calls. There is no code: specs/Calls says it, specs/Theorem proves it.
#![tactic(auto)]
