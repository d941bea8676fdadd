//! The commands.

use base_model::{Items, Str};

/// How long `apply` waits for a commit where no `--timeout` is given, in seconds.
pub const DEFAULT_TIMEOUT: u32 = 60;

/// The fewest devices of a generated workload.
pub const MIN_DEVICES: u32 = 1;

/// The most devices of a generated workload.
pub const MAX_DEVICES: u32 = 100;

/// The fewest nodes of a rollout, and the fewest that it may hold at once.
pub const MIN_NODES: u32 = 1;

/// The most nodes of a rollout, and the most that it may hold at once.
pub const MAX_NODES: u32 = 64;

/// A command with its arguments. A FILE that is missing is standard input.
#[derive(Drop)]
pub enum Command {
    Show {
        only: Option<Str>,
        json: bool,
    },
    Plan {
        file: Option<Str>,
        batch: bool,
    },
    /// The value of a policy.
    Policy {
        file: Option<Str>,
    },
    Simulate {
        file: Option<Str>,
    },
    Apply {
        file: Option<Str>,
        no_commit: bool,
        no_verify: bool,
        /// In seconds.
        timeout: u32,
    },
    Service {
        dir: Str,
    },
    Rollout {
        /// How many nodes it may hold at once, from `MIN_NODES` to `MAX_NODES`.
        limit: u32,
        file: Str,
        /// The folder of each node, from `MIN_NODES` to `MAX_NODES` of them.
        dirs: Items<Str>,
    },
    Commit,
    Rollback,
    Recover,
    Check,
    Init {
        file: Option<Str>,
    },
    Script {
        file: Option<Str>,
    },
    Generate {
        /// From `MIN_DEVICES` to `MAX_DEVICES`.
        devices: u32,
        seed: u32,
    },
}
