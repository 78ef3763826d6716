// The scheme as document 01 defines it, the ledger, and the claim that every list of calls is answered as the ledger
// answers it. No code: the definitions stand in specs/, the proof of the claim in proofs/.
#![tactic(auto)]
