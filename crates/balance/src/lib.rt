// The balance: every request sent or lost to one cause. No code that runs: what is claimed is in `specs/`, and why it holds in `proofs/`.
#![tactic(auto)]
