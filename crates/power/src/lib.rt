// Power failure: what holds wherever reclaim and recovery are cut. The statement is in specs/, its proof in proofs/.
#![tactic(auto)]
