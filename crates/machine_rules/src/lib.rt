// What the lowering of machines is: definitions and what they compute, no code.
#![tactic(auto)]
