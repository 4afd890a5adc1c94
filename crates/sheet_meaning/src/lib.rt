// What a sheet does has no code: its definitions are in specs/, the laws about them in proofs/.
#![tactic(auto)]
