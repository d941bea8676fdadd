//! What the commands share: what is said of an order that is carried out, what each command does on its way, and the laws
//! by which that follows from what the calls promise.
#![tactic(auto)]
