// A run by what the desk goes by: equal views run every log alike, so a text of an older edition runs as before. No code that runs: what is
// claimed is in `specs/`, and why it holds in `proofs/`.
#![tactic(auto)]
