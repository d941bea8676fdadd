//! Routes.

use crate::address::{Addr, Subnet};
use crate::id::TableId;
use crate::name::Name;

/// A route of a table. Destination, table and metric are its key, by which routes are ordered.
#[derive(Clone, Copy, PartialEq, Eq, PartialOrd, Ord)]
pub struct Route {
    pub dest: Subnet,
    pub table: TableId,
    pub metric: u32,
    pub gateway: Option<Addr>,
    pub dev: Name,
}
