// Definitions and laws alone, over any kind of message and any tables: this crate has no code.
// `specs/State.antt`: a session, and what keeping, applying and taking do to it. `specs/History.antt`: what the accepted packets alone
// determine. `specs/Promise.antt`: the rule between the two, and demand 3. `specs/Places.antt`: the waiting window in memory.
// `proofs/Demand3.antt` proves `demand3` for every channel, every opening number and every list of calls of both kinds.
// A channel of its own kind, as the overnight one or the reference prices, gives a `Channel` and shows `Judged` of it.
#![tactic(auto)]
