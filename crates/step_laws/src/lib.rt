// Theory only: the laws of the step's definitions stand in specs/, and no code stands here.
// Relies on ballots and consensus. Cited by proofs about runs.

#![tactic(auto)]
