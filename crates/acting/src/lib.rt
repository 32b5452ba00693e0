// Theorems alone: what request Two changed, between holding and acting.
#![tactic(auto)]
