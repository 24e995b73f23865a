// The pack format: what a pack is, read and written, as definitions, and what they compute; no code.
#![tactic(auto)]
