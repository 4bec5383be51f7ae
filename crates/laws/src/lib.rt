// The laws of the definitions stand in specs/.
#![tactic(auto)]
