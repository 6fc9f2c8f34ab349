// The written rules. This crate has no code: specs/ has the definitions, proofs/ their laws.
#![tactic(auto)]
