// That no two answers satisfy a call's contract: one law (proofs/Determined.antt), and each call under
// it. No code.
#![tactic(auto)]
