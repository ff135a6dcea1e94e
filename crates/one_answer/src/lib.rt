// Theory only: that each public function's contract fixes its answer. The statements are in specs/.

#![tactic(auto)]
