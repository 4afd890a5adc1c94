// What the calls of the deposit checklist mean has no code: definitions and contracts are in specs/, the laws about them
// in proofs/.
#![tactic(auto)]
