//! What a round makes of a list of edges, for contracts and proofs: nothing here runs.
#![tactic(auto)]
