// Every name of a setting and the key of its line. No code that runs: what is claimed is in `specs/`, and why it holds in `proofs/`.
#![tactic(auto)]
