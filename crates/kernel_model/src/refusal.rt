//! The numbers with which the kernel refuses a call.

/// A link that is named isn't there: the link, the port, the controller or the route's device.
pub const NO_LINK: u8 = 1;
/// A link of the name is there already; or, where a veth is made, one of its peer's name is, or the peer's name is its own.
pub const LINK_EXISTS: u8 = 2;
/// The kind is Ethernet, which is neither made nor deleted.
pub const PHYSICAL: u8 = 3;
/// The base of the VLAN isn't there, or can't be one.
pub const BAD_BASE: u8 = 4;
/// A VLAN of this base, protocol and number is there.
pub const VLAN_TWIN: u8 = 5;
/// A link would depend on itself.
pub const CYCLE: u8 = 6;
/// The base is down.
pub const BASE_DOWN: u8 = 7;
/// The MTU is out of range, or above the base's.
pub const BAD_MTU: u8 = 8;
/// The port has a controller.
pub const HAS_CONTROLLER: u8 = 9;
/// The controller doesn't take ports of this kind.
pub const PORT_KIND: u8 = 10;
/// The controller is a bond and the port is up.
pub const PORT_UP: u8 = 11;
/// The port of a bond or a bridge has an address, or is to have one.
pub const PORT_ADDRESS: u8 = 12;
/// The port has no controller.
pub const NO_CONTROLLER: u8 = 13;
/// The link, or the port's controller, is of another kind, or the options aren't right.
pub const BAD_OPTIONS: u8 = 14;
/// The link has the address, with whatever length.
pub const ADDRESS_EXISTS: u8 = 15;
/// The link doesn't have the address with that length.
pub const NO_ADDRESS: u8 = 16;
/// The device is down, or, where the address is IPv6, the link.
pub const LINK_DOWN: u8 = 17;
/// The gateway isn't on-link at the device.
pub const BAD_GATEWAY: u8 = 18;
/// A route of this destination, table and metric is there.
pub const ROUTE_EXISTS: u8 = 19;
/// The route isn't there.
pub const NO_ROUTE: u8 = 20;
/// The rule is there.
pub const RULE_EXISTS: u8 = 21;
/// The rule isn't there.
pub const NO_RULE: u8 = 22;
/// A count would pass its limit.
pub const LIMIT: u8 = 23;
