// What a store beside a board recalls of a log: the promises of document 02, P6.
#![tactic(auto)]
