// From START to the first trigger, crossing by crossing. No code that runs: what is told is in `specs/`, and the way computed in `proofs/`.
#![tactic(auto)]
