// A case, its file and the entries' replies, as docs/SPECIFICATION.md has them: specs/. Theorems on them: proofs/. No code.
#![tactic(auto)]
