// Items held in the first places of lent words, and the two ways to find one: in the order of the places, or by an index. The definitions are in specs/, the
// laws in proofs/, over any item. There is no code here.
#![tactic(auto)]
