// The three demands in one place. No code that runs: what is promised is in `specs/`, and why it holds in `proofs/`.
#![tactic(auto)]
