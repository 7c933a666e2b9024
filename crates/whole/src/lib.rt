// No code: what all crates use of whole numbers, truth values and lists stands in specs/.

#![tactic(auto)]
