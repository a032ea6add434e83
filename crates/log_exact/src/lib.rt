// Theorems only: the log reader accepts exactly what the monitor's requests write. The claims stand in specs/, the argument in proofs/.
#![tactic(auto)]
