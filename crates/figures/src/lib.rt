// The worked figures of document 01. No code that runs: what is claimed is in `specs/`, and why it holds in `proofs/`.
#![tactic(auto)]
