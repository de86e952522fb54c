//! Algebra of the whole numbers, for proofs: nothing here runs.
#![tactic(auto)]
