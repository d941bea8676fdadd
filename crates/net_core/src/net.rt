//! A network.
ghost use Rattle.std.specs.Prelude.{◌≡◌, ◌↔◌, true, [], Some, None, if◌then◌else◌, is_some, IfOk, IsTrue, option_copied};
ghost use Rattle.std.specs.List.{list_any};
ghost use Rattle.net_model.specs.Address.{Address, Block};
ghost use Rattle.net_model.specs.Facts.{Facts};
ghost use Rattle.net_model.specs.Hardware.{hardware};
ghost use Rattle.net_model.specs.Links.{find_link, is_twin, ports_of};
ghost use Rattle.net_model.specs.OfName.{over, routes_of};
ghost use Rattle.net_model.specs.KeyOrder.{key_cmp};
ghost use Rattle.net_model.specs.Words.{rises};
ghost use Rattle.net_model.specs.NetData.{NetData, IsNet, IsRearranged, net_of, no_dns, ordered, is_net, Makes};
ghost use Rattle.net_model.specs.Order.{name_cmp, route_cmp, rule_cmp};
ghost use Rattle.net_model.specs.Positions.{LinkPosition, Located};
ghost use Rattle.net_model.specs.Rule.{RuleParts};
ghost use Rattle.net_model.specs.SameLists.{SameLinks, SameAddresses, SameRoutes, SameRules};
ghost use Rattle.net_model.specs.Valid.{address_count, least_broken, same_address, same_block, same_key, same_rule};

use crate::parts::Parts;
use crate::sorting::sorted_parts;
use crate::valid::least_broken;
use base_model::OutOfMemory;
use net_lists::find_link;
use net_model::{Dns, Kind, Link, Name, NetFault, Position, Route, RouteKey, Rule};
use net_valid::same_devices;
use std::alloc::{AllocError, Global};
use std::marker::Model;
use std::mem;

/// A network: valid, with each list in order, so that equal networks are equal values.
pub struct Net {
    parts: Parts,
}

// By hand, so that a proof sees one call where a network is dropped, and not each list and index of it.
impl Drop for Net {
    fn drop(self) {
        let Net { parts: _ } = self;
    }
}

impl Model for Net {
    ghost use Rattle.net_model.specs.NetData.{NetData, IsNet};

    ghost Value = { NetData };

    ghost view = { λ n. n.parts };

    ghost invariant = { λ n. IsNet n.parts };
}

impl Net {
    /// The network of these lists, which it sorts, but for those of DNS. `Broken` comes exactly where they break a part
    /// of validity, with the least such part.
    pub fn new(
        alloc: Global,
        links: Vec<Link>,
        routes: Vec<Route>,
        rules: Vec<Rule>,
        dns: Dns,
    ) -> Result<Net, NetFault>
        ensures { Makes result (net_of links.items routes.items rules.items dns) }
    {
        let parts = sorted_parts(alloc, links, routes, rules, dns)?;
        match least_broken(alloc, &parts)? {
            Some(part) => Err(NetFault::Broken(part)),
            None => Ok(Net { parts }),
        }
    }

    /// The network of lists that are in order already, as stored ones are, or `None` exactly where they break a part of
    /// validity or a list isn't in order. It sorts nothing.
    pub fn of_parts(alloc: Global, parts: Parts) -> Result<Option<Net>, OutOfMemory>
        ensures { IfOk result (λ net. net ≡ (if is_net parts then Some parts else None)) }
    {
        if !parts.is_in_order() {
            return Ok(None);
        }
        match least_broken(alloc, &parts)? {
            Some(_) => Ok(None),
            None => Ok(Some(Net { parts })),
        }
    }

    /// Closes a network that was taken apart. It tests nothing and takes no memory: the caller shows that the lists are
    /// valid and in order.
    pub fn from_parts(parts: Parts) -> Net
        requires { IsNet parts }
        ensures { result ≡ parts }
    {
        Net { parts }
    }

    /// The lists of the network. It takes no memory.
    pub fn into_parts(self) -> Parts
        ensures parts { result ≡ self }
        ensures net { IsNet self }
    {
        let Net { parts } = self;
        parts
    }

    /// The empty network: no links, routes, rules, DNS servers or search domains. It takes no memory.
    pub fn empty(alloc: Global) -> Net
        ensures { result ≡ net_of [] [] [] no_dns }
    {
        Net {
            parts: Parts::empty(alloc),
        }
    }

    /// Takes the lists out, and leaves the empty network. It takes no memory.
    pub fn take(&mut self) -> Parts
        ensures parts { result ≡ self.old }
        ensures net { IsNet self.old }
        ensures left { self.new ≡ net_of [] [] [] no_dns }
    {
        let alloc = *self.links().allocator();
        mem::replace(self, Net::empty(alloc)).into_parts()
    }

    /// An equal network.
    pub fn copy(&self) -> Result<Net, OutOfMemory>
        ensures { IfOk result (λ net. net ≡ self.now) }
    {
        Ok(Net {
            parts: self.parts.copy()?,
        })
    }

    /// The links, by their names.
    pub fn links(&self) -> &Vec<Link>
        ensures { result.now.items ≡ self.now.links }
    {
        &self.parts.links
    }

    /// The routes, by destination, table and metric.
    pub fn routes(&self) -> &Vec<Route>
        ensures { result.now.items ≡ self.now.routes }
    {
        &self.parts.routes
    }

    /// The rules, by all their fields.
    pub fn rules(&self) -> &Vec<Rule>
        ensures { result.now.items ≡ self.now.rules }
    {
        &self.parts.rules
    }

    /// The names of the VLANs directly over a base, in order. It takes no memory.
    pub fn over(&self, base: &Name) -> &[Name]
        ensures names { result.now ≡ over self.now.links base.now }
        ensures in_order { rises name_cmp result.now ≡ true }
    {
        self.parts.over(base)
    }

    /// The names of the ports of a controller, in order. It takes no memory.
    pub fn ports_of(&self, controller: &Name) -> &[Name]
        ensures names { result.now ≡ ports_of self.now.links controller.now }
        ensures in_order { rises name_cmp result.now ≡ true }
    {
        self.parts.ports_of(controller)
    }

    /// The keys of the routes of a device, in order. It takes no memory.
    pub fn routes_of(&self, dev: &Name) -> &[RouteKey]
        ensures keys { result.now ≡ routes_of self.now.routes dev.now }
        ensures in_order { rises key_cmp result.now ≡ true }
    {
        self.parts.routes_of(dev)
    }

    /// Whether a link is a VLAN over the same base with the same protocol and number, by one look-up. It takes no memory.
    pub fn has_twin(&self, kind: &Kind) -> bool
        ensures { result ≡ list_any (λ l. is_twin kind.now l.kind) self.now.links }
    {
        self.parts.has_twin(kind)
    }

    /// How many addresses the links have together. It takes no memory.
    pub fn address_count(&self) -> usize
        ensures { result ≡ address_count self.now.links }
    {
        self.parts.address_count()
    }

    /// The settings of DNS, as they were given.
    pub fn dns(&self) -> &Dns
        ensures { result.now ≡ self.now.dns }
    {
        &self.parts.dns
    }

    /// The link of a name, or `None` exactly where no link has it.
    pub fn link(&self, name: &Name) -> Option<&Link>
        ensures { option_copied result ≡ find_link name.now self.now.links }
    {
        find_link(&self.parts.links, name)
    }

    /// Whether a link has the name.
    pub fn has_link(&self, name: &Name) -> bool
        ensures { result ≡ is_some (find_link name.now self.now.links) }
    {
        self.link(name).is_some()
    }

    /// The place of the link of a name among the links.
    pub fn link_position(&self, name: &Name) -> Position
        ensures { LinkPosition result name.now self.now.links }
    {
        self.parts.link_position(name)
    }

    /// The place among the routes of the one with this one's destination, table and metric.
    pub fn route_position(&self, route: &Route) -> Position
        ensures { Located same_key route_cmp result route.now self.now.routes }
    {
        self.parts.route_position(route)
    }

    /// The place of a rule among the rules.
    pub fn rule_position(&self, rule: &Rule) -> Position
        ensures { Located same_rule rule_cmp result rule.now self.now.rules }
    {
        self.parts.rule_position(rule)
    }

    /// Whether both have the same Ethernet links, by name, with the same permanent MACs.
    #[tactic(auto, using(net_model::proofs::lemmas::Devices::same_devices_exact))]
    pub fn same_hardware(&self, other: &Net) -> bool
        ensures { IsTrue result ↔ (hardware self.now.links ≡ hardware other.now.links) }
    {
        same_devices(self.links(), other.links())
    }

    /// What is known of every network, by the names of its links and by index. It supplies laws, and has no effect at run
    /// time.
    pub fn laws(&self)
        ensures net { IsNet self.now }
        ensures facts { Facts self.now }
    {
        let _ = &self.parts;
    }

    /// What putting in order means for every network: the order in which valid lists are given makes no difference, also
    /// not for the part of validity that they break; the lists of a network are in order already; and which lists are a
    /// network. It supplies laws, and has no effect at run time.
    pub fn order_laws()
        ensures any_order { (a b : NetData) → IsRearranged a b → least_broken a ≡ None → ordered a ≡ ordered b }
        ensures in_order { (net : NetData) → IsNet net → ordered net ≡ net }
        ensures rearranged { (a b : NetData) → IsRearranged a b → least_broken a ≡ least_broken b }
        ensures tested { (net : NetData) → IsTrue (is_net net) ↔ IsNet net }
    {}

    /// Lists in order in which the same is found are equal. It supplies laws, and has no effect at run time.
    pub fn list_laws()
        ensures links { SameLinks }
        ensures addresses { SameAddresses }
        ensures routes { SameRoutes }
        ensures rules { SameRules }
    {}

    /// The tests of sameness are equality. It supplies laws, and has no effect at run time.
    pub fn equality_laws()
        ensures addresses { (a b : Address) → IsTrue (same_address a b) ↔ (a ≡ b) }
        ensures blocks { (a b : Block) → IsTrue (same_block a b) ↔ (a ≡ b) }
        ensures rules { (a b : RuleParts) → IsTrue (same_rule a b) ↔ (a ≡ b) }
    {}
}
