// The window and the own bucket for calls by hardware address, and the theorems that the calls of `modems` keep to them: definitions in specs/, proofs in
// proofs/. There is no code here.
#![tactic(auto)]
