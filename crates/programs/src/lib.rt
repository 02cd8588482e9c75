// No empty program. No code that runs: what is claimed of each operation is in `specs/`, and why it holds in `proofs/`.
#![tactic(auto)]
