// Theory only: runs of boxes, and what is promised of them. The definitions are in specs/, with the laws that no edit of them reaches;
// the theorems that rest on them are in proofs/.

#![tactic(auto)]
