// The salvaged log and its list of changes are faithful to the log: the promises of document 02, P7.
#![tactic(auto)]
