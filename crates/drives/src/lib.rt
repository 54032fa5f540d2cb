// The drives of docs/SPECIFICATION.md, clause 10.1: their table in specs/, its one lemma in proofs/. No code.
#![tactic(auto)]
