#![tactic(auto)]

// Facts about lists, tests and maps over places. It has no code that runs: its definitions are in `specs/`, and its laws in `proofs/`.
