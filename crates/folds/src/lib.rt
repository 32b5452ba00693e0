// Definitions and laws alone: the bounded folds that every layer counts and searches with.
#![tactic(auto)]
