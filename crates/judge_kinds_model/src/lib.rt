// A lent table of kinds, a file with its kind bytes exchanged by it, and what judging it replies: definitions and proofs, no code.
// docs/SPECIFICATION.md, section 13.
#![tactic(auto)]
