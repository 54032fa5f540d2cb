// Regular rules and what the judge of large drives replies: definitions and proofs, no code. docs/SPECIFICATION.md, section 12.
#![tactic(auto)]
