//! The kernel's calls on links, carried out in place.
#![tactic(auto)]

// Whether attaching makes a cycle.
mod cycle;
// Which links depend on one.
mod dependents;
// What hangs on a link.
mod hanging;
// Links by name, in lists strictly sorted by name.
mod lookup;
// Links that go down.
mod lower;
// Links that come and go.
mod made;
// New MTUs.
mod mtu;
// Calls that write on the link that they name.
mod one_link;
// The refusals of calls that make, delete and set links.
mod refuse;
// The refusals of calls on ports.
mod refuse_port;
// Links that are released before they go.
mod release;
// One call on links.
mod step;

pub use lookup::has_link;
pub use step::step_link;
