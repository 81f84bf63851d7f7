//! Definitions at values worked out by hand, each an equation by computing (`proofs/`): what a bill
//! acceptor and a hopper say, row by row, what is wrong with bytes, the bodies of records and of a
//! carry, what a ledger takes, plans, what a monitor says, and what coins are worth. A contract
//! fixes what a call returns by a definition; these rows are what shows that the definition is the
//! right one.
#![tactic(auto)]
