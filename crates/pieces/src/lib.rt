// A log read in pieces of whole blocks is the log in blocks of 64 records. No code that runs: what is claimed is in `specs/`, and why it holds in `proofs/`.
#![tactic(auto)]
