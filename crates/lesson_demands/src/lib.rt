// What is promised of a lesson (issue "Lessons"): definitions in specs/, proofs in proofs/. There is no code here.
#![tactic(auto)]
