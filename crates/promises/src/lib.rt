// What a history of calls is worth. This crate has no code: specs/ states demand 3 over the definitions that the contracts name, proofs/ proves it.
#![tactic(auto)]
