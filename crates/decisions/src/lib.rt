// What a step of an accepted machine comes to: its definitions and their laws. The code is in the crate `machine`.

#![tactic(auto)]
