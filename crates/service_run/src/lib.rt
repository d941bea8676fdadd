//! A service: the documents of a folder, in the order of their names, each applied and then marked.
#![tactic(auto)]

// Reading the document of a file.
mod reading;
// What a service says of its documents.
mod telling;
// The documents one after another.
mod service;
// What is known of services one after another.
mod laws;

pub use laws::service_laws;
pub use service::serve_all;
