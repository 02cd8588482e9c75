// The cut: a log run in blocks is the log run whole. No code that runs: what is claimed is in `specs/`, and why it holds in `proofs/`.
#![tactic(auto)]
