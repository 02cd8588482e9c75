// The slot by arithmetic: who holds it after so many orbits. No code that runs: what is claimed is in `specs/`, and why it holds in `proofs/`.
#![tactic(auto)]
