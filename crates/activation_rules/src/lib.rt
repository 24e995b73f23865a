// What the lowering of activations is: definitions and what they compute, no code.
#![tactic(auto)]
