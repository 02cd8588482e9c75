// An input that bounces changes nothing. No code that runs: what is claimed is in `specs/`, and why it holds in `proofs/`.
#![tactic(auto)]
