// Document 01's worked examples P1 to P12 and the two rules of an opening: one table
// (specs/Examples.antt) under one statement (proofs/Hold.antt), which the checker computes. No code.
#![tactic(auto)]
