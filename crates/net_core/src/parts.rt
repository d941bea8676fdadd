//! The lists of a network that is taken apart, or not yet closed, with their indexes.
ghost use Rattle.std.specs.Prelude.{◌≡◌, true, false, None, [], filter, map, not, is_some, IfOk, OnOk, OnErr};
ghost use Rattle.std.specs.List.{list_any, list_all};
ghost use Rattle.net_model.specs.Name.{same_bytes};
ghost use Rattle.net_model.specs.Words.{rises, put, is_among, is_empty};
ghost use Rattle.net_model.specs.Order.{block_cmp, name_cmp, link_cmp, route_cmp, rule_cmp};
ghost use Rattle.net_model.specs.Links.{find_link, named_passes, is_twin, ports_of};
ghost use Rattle.net_model.specs.Lists.{net_of, no_dns};
ghost use Rattle.net_model.specs.Valid.{address_count, vlans_differ, same_block, same_key, same_rule};
ghost use Rattle.net_model.specs.declared.link.Kind.TheVariants.{Veth};
ghost use Rattle.net_model.specs.Edits.{edit_link, attached, detached, is_free_but_for, has_primary_port, may_be_named, freed, without, same_route, stays_on_link, address_put, address_removed, taken_down};
ghost use Rattle.net_model.specs.OfName.{over, routes_of};
ghost use Rattle.net_model.specs.KeyOrder.{key_cmp};
ghost use Rattle.net_model.specs.NetData.{is_in_order};
ghost use Rattle.net_model.specs.Positions.{LinkPosition, Located};

use base_model::{Items, OutOfMemory};
use net_edits::{
    attach_named, count_all, count_without, counted, detach_from, detach_named, free_links,
    insert_link, insert_route, is_port, keep_links, keep_on_link, lower, position_of, put_address,
    remove_address, remove_routes,
};
use net_index::{
    Indexes, add_vlan, leave_out_key, leave_out_keys, leave_out_port, leave_out_ports,
    leave_out_vlans, put_key, put_name,
};
use net_lists::{
    each_in_order, has_vlan, link_position, links_in_order, route_position, routes_in_order,
    rule_position, rules_in_order,
};
use net_model::{Dns, Kind, Link, Name, Position, Prefix, Route, RouteKey, Rule};
use std::alloc::{AllocError, Global};
use std::marker::Model;

/// The lists of a network, of which nothing is known but that the indexes list what stands in them, and that the addresses are
/// counted: a network that is taken apart to be changed. Contracts see the lists alone.
pub struct Parts {
    pub links: Vec<Link>,
    pub routes: Vec<Route>,
    pub rules: Vec<Rule>,
    pub dns: Dns,
    indexes: Indexes,
    addresses: usize,
}

// By hand, so that a proof sees one call where one is dropped, and not a step for each part.
impl Drop for Parts {
    fn drop(self) {
        let Parts {
            links: _,
            routes: _,
            rules: _,
            dns: _,
            indexes: _,
            addresses: _,
        } = self;
    }
}

impl Model for Parts {
    ghost use Rattle.net_model.specs.Lists.{NetData};
    ghost use Rattle.net_index.specs.Indexed.{IsIndexed};

    ghost Value = { NetData };

    ghost view = { λ n. record { links = n.links.items; routes = n.routes.items; rules = n.rules.items; dns = n.dns } };

    ghost invariant = { λ n. IsIndexed n.links.items n.routes.items n.indexes n.addresses };
}

impl Parts {
    /// These lists, as they stand.
    pub fn of(
        alloc: Global,
        links: Vec<Link>,
        routes: Vec<Route>,
        rules: Vec<Rule>,
        dns: Dns,
    ) -> Result<Parts, OutOfMemory>
        ensures { IfOk result (λ parts. parts ≡ net_of links.items routes.items rules.items dns) }
    {
        let indexes = Indexes::of(alloc, &links, &routes)?;
        let addresses = count_all(&links)?;
        Ok(Parts {
            links,
            routes,
            rules,
            dns,
            indexes,
            addresses,
        })
    }

    /// The lists of the empty network. It takes no memory.
    pub fn empty(alloc: Global) -> Parts
        ensures { result ≡ net_of [] [] [] no_dns }
    {
        Parts {
            links: Vec::new(alloc),
            routes: Vec::new(alloc),
            rules: Vec::new(alloc),
            dns: Dns {
                servers: Items::of(Vec::new(alloc)),
                search: Items::of(Vec::new(alloc)),
            },
            indexes: Indexes::new(alloc),
            addresses: 0,
        }
    }

    /// Whether the lists are in order, as those of a network are: links by name, addresses, routes by destination, table
    /// and metric, and rules by all their fields.
    pub fn is_in_order(&self) -> bool
        ensures { result ≡ is_in_order self.now }
    {
        links_in_order(&self.links)
            && each_in_order(&self.links)
            && routes_in_order(&self.routes)
            && rules_in_order(&self.rules)
    }

    /// The place of the link of a name.
    pub fn link_position(&self, name: &Name) -> Position
        requires { rises link_cmp self.now.links ≡ true }
        ensures { LinkPosition result name.now self.now.links }
    {
        link_position(&self.links, name)
    }

    /// The place of the route with this one's destination, table and metric.
    pub fn route_position(&self, route: &Route) -> Position
        requires { rises route_cmp self.now.routes ≡ true }
        ensures { Located same_key route_cmp result route.now self.now.routes }
    {
        route_position(&self.routes, route)
    }

    /// The place of a rule.
    pub fn rule_position(&self, rule: &Rule) -> Position
        requires { rises rule_cmp self.now.rules ≡ true }
        ensures { Located same_rule rule_cmp result rule.now self.now.rules }
    {
        rule_position(&self.rules, rule)
    }

    pub(crate) fn copy(&self) -> Result<Parts, OutOfMemory>
        ensures { IfOk result (λ parts. parts ≡ self.now) }
    {
        let alloc = *self.links.allocator();
        Parts::of(
            alloc,
            copy_links(&self.links)?,
            copy_routes(&self.routes)?,
            copy_rules(&self.rules)?,
            self.dns.copy()?,
        )
    }

    /// The names of the VLANs directly over a base, in the order of the links. It takes no memory.
    pub fn over(&self, base: &Name) -> &[Name]
        ensures names { result.now ≡ over self.now.links base.now }
        ensures sorted { rises link_cmp self.now.links ≡ true → rises name_cmp result.now ≡ true }
    {
        self.indexes.over.at(base)
    }

    /// The names of the ports of a controller, in the order of the links. It takes no memory.
    pub fn ports_of(&self, controller: &Name) -> &[Name]
        ensures names { result.now ≡ ports_of self.now.links controller.now }
        ensures sorted { rises link_cmp self.now.links ≡ true → rises name_cmp result.now ≡ true }
    {
        self.indexes.ports.at(controller)
    }

    /// The keys of the routes of a device, in the order of the routes. It takes no memory.
    pub fn routes_of(&self, dev: &Name) -> &[RouteKey]
        ensures keys { result.now ≡ routes_of self.now.routes dev.now }
        ensures sorted { rises route_cmp self.now.routes ≡ true → rises key_cmp result.now ≡ true }
    {
        self.indexes.routes.at(dev)
    }

    /// Whether a link is a VLAN over the same base with the same protocol and number, by one look-up. It takes no memory.
    pub fn has_twin(&self, kind: &Kind) -> bool
        ensures { result ≡ list_any (λ l. is_twin kind.now l.kind) self.now.links }
    {
        has_vlan(&self.indexes.vlans, kind)
    }

    /// How many addresses the links have together. It takes no memory.
    pub fn address_count(&self) -> usize
        ensures { result ≡ address_count self.now.links }
    {
        self.addresses
    }

    /// Puts a link into its place whose name none has and that has no controller. What has to grow grows before the first
    /// change.
    pub fn put_link(&mut self, link: Link) -> Result<(), OutOfMemory>
        requires in_order { rises link_cmp self.old.links ≡ true }
        requires new { find_link link.name self.old.links ≡ None }
        requires free { link.controller ≡ None }
        ensures ok { OnOk result (self.new ≡ record self.old { links = put link_cmp link self.old.links }) }
        ensures err { OnErr result (self.new ≡ self.old) }
    {
        let addresses = counted(self.addresses, &link)?;
        self.links.reserve(1)?;
        add_vlan(&mut self.indexes.over, &mut self.indexes.vlans, &link)?;
        insert_link(&mut self.links, link);
        self.addresses = addresses;
        Ok(())
    }

    /// Puts both ends of a pair of veths into their places, of names that none has, without controllers, or neither. What has
    /// to grow grows before the first change.
    pub fn put_pair(&mut self, first: Link, second: Link) -> Result<(), OutOfMemory>
        requires in_order { rises link_cmp self.old.links ≡ true }
        requires first_new { find_link first.name self.old.links ≡ None }
        requires second_new { find_link second.name self.old.links ≡ None }
        requires differ { same_bytes first.name second.name ≡ false }
        requires first_end { first.kind ≡ Veth second.name }
        requires second_end { second.kind ≡ Veth first.name }
        requires first_free { first.controller ≡ None }
        requires second_free { second.controller ≡ None }
        ensures ok { OnOk result (self.new ≡ record self.old { links = put link_cmp second (put link_cmp first self.old.links) }) }
        ensures err { OnErr result (self.new ≡ self.old) }
    {
        let with_first = counted(self.addresses, &first)?;
        let with_both = counted(with_first, &second)?;
        self.links.reserve(2)?;
        insert_link(&mut self.links, first);
        insert_link(&mut self.links, second);
        self.addresses = with_both;
        Ok(())
    }

    /// Makes a link that is there and has no controller a port. What has to grow grows before the first change.
    pub fn attach(&mut self, port: &Name, controller: &Name) -> Result<(), OutOfMemory>
        requires in_order { rises link_cmp self.old.links ≡ true }
        requires there { is_some (find_link port.now self.old.links) ≡ true }
        requires free { named_passes (λ p. is_some p.controller) self.old.links port.now ≡ false }
        ensures ok { OnOk result (self.new ≡ record self.old { links = edit_link port.now (attached controller.now) self.old.links }) }
        ensures err { OnErr result (self.new ≡ self.old) }
    {
        put_name(&mut self.indexes.ports, controller, port)?;
        attach_named(&mut self.links, port, controller);
        Ok(())
    }

    /// Detaches a port, which is then no bond's primary. It takes no memory.
    pub fn detach(&mut self, port: &Name)
        requires { rises link_cmp self.old.links ≡ true }
        ensures { self.new ≡ record self.old { links = map (detached port.now) self.old.links } }
    {
        leave_out_port(&mut self.indexes.ports, &self.links, port);
        detach_named(&mut self.links, port);
    }

    /// Detaches a port of a controller that alone may have it as its primary, and then hasn't. Both are found by binary
    /// search. It takes no memory.
    pub fn detach_from(&mut self, port: &Name, controller: &Name)
        requires in_order { rises link_cmp self.old.links ≡ true }
        requires alone { list_all (is_free_but_for port.now controller.now) self.old.links ≡ true }
        ensures { self.new ≡ record self.old { links = map (detached port.now) self.old.links } }
    {
        leave_out_port(&mut self.indexes.ports, &self.links, port);
        detach_from(&mut self.links, port, controller);
    }

    // Whether a link may have this one as its controller, or as its primary: it has ports, or a controller, as a primary has.
    fn may_be_named(&self, name: &Name) -> bool
        requires { rises link_cmp self.now.links ≡ true }
        ensures { result ≡ may_be_named self.now.links name.now }
    {
        !self.ports_of(name).is_empty() || is_port(&self.links, name)
    }

    // Whether a link may have one of these as its controller or its primary.
    fn may_name(&self, names: &[Name]) -> bool
        requires { rises link_cmp self.now.links ≡ true }
        ensures { result ≡ list_any (may_be_named self.now.links) names.now }
    {
        names.iter().any(|name| self.may_be_named(name))
    }

    // What has one of these, which are sorted, as its controller has none then, and what has one as its primary neither. The
    // links are gone over only where one of these has ports or a controller.
    fn free_links(&mut self, goes: &[Name])
        requires in_order { rises link_cmp self.old.links ≡ true }
        requires names { rises name_cmp goes.now ≡ true }
        requires primaries { list_all (has_primary_port self.old.links) self.old.links ≡ true }
        ensures { self.new ≡ record self.old { links = map (freed (is_among goes.now)) self.old.links } }
    {
        if self.may_name(goes) {
            self.indexes.ports.clear_all(goes);
            free_links(&mut self.links, goes);
        }
    }

    // Takes out the links of these names, which are sorted, and leaves the others as they are.
    fn keep_links(&mut self, goes: &[Name])
        requires in_order { rises link_cmp self.old.links ≡ true }
        requires names { rises name_cmp goes.now ≡ true }
        requires twins { vlans_differ self.old.links ≡ true }
        ensures { self.new ≡ record self.old { links = filter (λ l. not (is_among goes.now l.name)) self.old.links } }
    {
        let addresses = count_without(&self.links, self.addresses, goes);
        leave_out_vlans(&mut self.indexes.over, &self.links, goes);
        leave_out_ports(&mut self.indexes.ports, &self.links, goes);
        leave_out_keys(&mut self.indexes.vlans, &self.links, goes);
        keep_links(&mut self.links, goes);
        self.addresses = addresses;
    }

    /// Takes out the links of these names, which are sorted, and the routes over them. What had one as its controller has none
    /// then, and what had one as its primary neither. No two of the links before are twins, and a primary is one of its bond's
    /// ports. Where one goes alone that is no port and has none, those after it move up, and no other link is looked at. It
    /// takes no memory.
    pub fn remove_links(&mut self, goes: &[Name])
        requires in_order { rises link_cmp self.old.links ≡ true }
        requires names { rises name_cmp goes.now ≡ true }
        requires twins { vlans_differ self.old.links ≡ true }
        requires primaries { list_all (has_primary_port self.old.links) self.old.links ≡ true }
        ensures { self.new ≡ without (is_among goes.now) self.old }
    {
        self.free_links(goes);
        self.keep_links(goes);
        self.remove_routes_of(goes);
    }

    /// Puts an address into its place that the named link doesn't have. What has to grow grows before the first change.
    pub fn put_address(&mut self, name: &Name, addr: &Prefix) -> Result<(), OutOfMemory>
        requires names { rises link_cmp self.old.links ≡ true }
        requires in_order { list_all (λ l. rises block_cmp l.addrs) self.old.links ≡ true }
        requires new { named_passes (λ l. list_any (same_block addr.now) l.addrs) self.old.links name.now ≡ false }
        ensures ok { OnOk result (self.new ≡ record self.old { links = edit_link name.now (address_put addr.now) self.old.links }) }
        ensures err { OnErr result (self.new ≡ self.old) }
    {
        if self.addresses == usize::MAX {
            return Err(OutOfMemory);
        }
        let more = put_address(&mut self.links, name, addr)?;
        self.addresses += more;
        Ok(())
    }

    /// Takes an address with its length from the named link, where it has it. It takes no memory.
    pub fn remove_address(&mut self, name: &Name, addr: &Prefix)
        requires { rises link_cmp self.old.links ≡ true }
        ensures edit { self.new ≡ record self.old { links = edit_link name.now (address_removed addr.now) self.old.links } }
        ensures rise { rises link_cmp self.new.links ≡ true }
    {
        let gone = remove_address(&mut self.links, name, addr);
        self.addresses -= gone;
    }

    /// Takes the named link down, and its IPv6 addresses away. It takes no memory.
    pub fn lower(&mut self, name: &Name)
        requires { rises link_cmp self.old.links ≡ true }
        ensures { self.new ≡ record self.old { links = edit_link name.now taken_down self.old.links } }
    {
        let lost = lower(&mut self.links, name);
        self.addresses -= lost;
    }

    /// Puts a route into its place whose key none has. What has to grow grows before the first change.
    pub fn put_route(&mut self, route: Route) -> Result<(), OutOfMemory>
        requires in_order { rises route_cmp self.old.routes ≡ true }
        requires new { list_any (same_key route) self.old.routes ≡ false }
        ensures ok { OnOk result (self.new ≡ record self.old { routes = put route_cmp route self.old.routes }) }
        ensures err { OnErr result (self.new ≡ self.old) }
    {
        self.routes.reserve(1)?;
        put_key(&mut self.indexes.routes, &route)?;
        insert_route(&mut self.routes, route);
        Ok(())
    }

    /// Takes out a route, where it is there with all its fields. It takes no memory.
    pub fn remove_route(&mut self, route: &Route)
        requires { rises route_cmp self.old.routes ≡ true }
        ensures { self.new ≡ record self.old { routes = filter (λ r. not (same_route route.now r)) self.old.routes } }
    {
        if let Some(i) = position_of(&self.routes, route) {
            leave_out_key(&mut self.indexes.routes, route);
            self.routes.remove(i);
        }
    }

    // Whether one of these devices has a route.
    fn have_routes(&self, devs: &[Name]) -> bool
        ensures { result ≡ list_any (λ n. not (is_empty (routes_of self.now.routes n))) devs.now }
    {
        devs.iter().any(|dev| !self.routes_of(dev).is_empty())
    }

    /// Takes out the routes of the devices of these names, which are sorted. The routes are gone over only where the index
    /// has one of them. It takes no memory.
    pub fn remove_routes_of(&mut self, devs: &[Name])
        requires { rises name_cmp devs.now ≡ true }
        ensures { self.new ≡ record self.old { routes = filter (λ r. not (is_among devs.now r.dev)) self.old.routes } }
    {
        if self.have_routes(devs) {
            self.indexes.routes.clear_all(devs);
            remove_routes(&mut self.routes, devs);
        }
    }

    /// Takes out the routes of a device whose gateway isn't on-link there. It takes no memory.
    pub fn keep_on_link(&mut self, dev: &Name)
        requires links { rises link_cmp self.old.links ≡ true }
        requires routes { rises route_cmp self.old.routes ≡ true }
        ensures { self.new ≡ record self.old { routes = filter (stays_on_link dev.now self.old.links) self.old.routes } }
    {
        self.indexes
            .routes
            .keep_on_link(&self.links, &self.routes, dev);
        keep_on_link(&mut self.routes, &self.links, dev);
    }
}

fn copy_links(links: &Vec<Link>) -> Result<Vec<Link>, AllocError>
    ensures { IfOk result (λ copy. copy.items ≡ links.now.items) }
{
    links.clone()
}

fn copy_routes(routes: &Vec<Route>) -> Result<Vec<Route>, AllocError>
    ensures { IfOk result (λ copy. copy.items ≡ routes.now.items) }
{
    routes.clone()
}

fn copy_rules(rules: &Vec<Rule>) -> Result<Vec<Rule>, AllocError>
    ensures { IfOk result (λ copy. copy.items ≡ rules.now.items) }
{
    rules.clone()
}
