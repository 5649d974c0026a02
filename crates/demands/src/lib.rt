// The demands on the limiter, and the theorems that its rules meet them, and so does code that is as its contracts say: definitions in specs/, proofs in
// proofs/. There is no code here.
#![tactic(auto)]
