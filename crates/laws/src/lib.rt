// What is claimed of every answer: the definitions of it in specs/, its proofs in proofs/. No functions.
#![tactic(auto)]
