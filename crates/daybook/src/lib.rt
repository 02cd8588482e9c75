// What a bench can tell from settings, records and rows, without the board. No code that runs: definitions and their laws.
#![tactic(auto)]
