// Words in rows, and places: definitions in specs/, laws in proofs/, over any item.
#![tactic(auto)]
