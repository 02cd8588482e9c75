// One outcome for one input. No code that runs: what is claimed of the contracts is in `specs/`, and why it holds in `proofs/`.
#![tactic(auto)]
