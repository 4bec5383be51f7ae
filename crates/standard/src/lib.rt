// The grammar of the standard stands in specs/.
#![tactic(auto)]
