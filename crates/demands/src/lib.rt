#![tactic(auto)]

// The theorems that meet the demands stand in proofs/; there is no code here.
