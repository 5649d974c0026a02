// Lists of calls before and after a conversion (request 14 of document 02): definitions in specs/, proofs in proofs/. There is no code here.
#![tactic(auto)]
