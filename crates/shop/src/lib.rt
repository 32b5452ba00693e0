// Theorems alone: the paper's small shop, its marked cases, the bound of request Three there, the lists of request Four
// on a table of their own, signatures taken back (Five), parameters with the codes tried (Six), a clerk with days
// (Seven), a clerk who vouches for the manager (Nine), and a refresh (Ten).
#![tactic(auto)]
