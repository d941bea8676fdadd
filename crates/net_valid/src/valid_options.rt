//! The part of validity that looks at options.
ghost use Rattle.std.specs.Prelude.{◌≡◌, ◌&&◌, ◌||◌, not, true};
ghost use Rattle.net_model.specs.Words.{rises, is_among};
ghost use Rattle.net_model.specs.Order.{link_cmp};
ghost use Rattle.net_model.specs.Links.{is_port_of, ports_of, named_passes};
ghost use Rattle.net_model.specs.Options.{bond_ok, bond_fits, primary_ok, takes_primary, is_802_3ad, is_fast, delays_ok, bridge_in_range, port_in_range};
ghost use Rattle.net_model.specs.Valid.{options_fit};

use net_lists::{find_link, is_port_of};
use net_model::{BondMode, BondOpts, BridgeOpts, Kind, LacpRate, Link, Name, PortOpts};

fn takes_primary(mode: BondMode) -> bool
    ensures { result ≡ takes_primary mode }
{
    matches!(
        mode,
        BondMode::ActiveBackup | BondMode::BalanceTlb | BondMode::BalanceAlb
    )
}

fn is_802_3ad(mode: BondMode) -> bool
    ensures { result ≡ is_802_3ad mode }
{
    matches!(mode, BondMode::Ieee8023ad)
}

pub(crate) fn is_fast(rate: LacpRate) -> bool
    ensures { result ≡ is_fast rate }
{
    matches!(rate, LacpRate::Fast)
}

fn delays_ok(opts: &BondOpts) -> bool
    ensures { result ≡ delays_ok opts.now }
{
    if opts.miimon == 0 {
        return opts.updelay == 0 && opts.downdelay == 0;
    }
    opts.updelay % opts.miimon == 0 && opts.downdelay % opts.miimon == 0
}

fn is_among(names: &[Name], name: &Name) -> bool
    ensures { result ≡ is_among names.now name.now }
{
    names.iter().any(|other| other == name)
}

fn primary_ok(mode: BondMode, primary: &Option<Name>, ports: &[Name]) -> bool
    ensures { result ≡ primary_ok mode primary.now ports.now }
{
    match primary {
        Some(primary) => is_among(ports, primary) && takes_primary(mode),
        None => true,
    }
}

fn rest_ok(mode: BondMode, opts: &BondOpts) -> bool
    ensures { result ≡ ((not (is_fast opts.now.lacp_rate) || is_802_3ad mode) && delays_ok opts.now) }
{
    (!is_fast(opts.lacp_rate) || is_802_3ad(mode)) && delays_ok(opts)
}

/// Whether a bond of this mode with these ports may have these options: a primary is a port, and the mode is
/// active-backup, balance-tlb or balance-alb; the fast rate stands only in 802.3ad; and both delays are 0, or the
/// interval of the link monitor isn't 0 and divides both.
pub fn bond_ok(mode: BondMode, opts: &BondOpts, ports: &[Name]) -> bool
    ensures { result ≡ bond_ok mode opts.now ports.now }
{
    primary_ok(mode, &opts.primary, ports) && rest_ok(mode, opts)
}

#[tactic(auto, using(net_model::proofs::lemmas::Found::named_passes_found))]
fn has_port(links: &[Link], controller: &Name, port: &Name) -> bool
    requires { rises link_cmp links.now ≡ true }
    ensures { result ≡ named_passes (is_port_of controller.now) links.now port.now }
{
    find_link(links, port).is_some_and(|link| is_port_of(link, controller))
}

#[tactic(auto, using(net_model::proofs::lemmas::Ports::among_ports))]
fn is_among_ports(links: &[Link], controller: &Name, port: &Name) -> bool
    requires { rises link_cmp links.now ≡ true }
    ensures { result ≡ is_among (ports_of links.now controller.now) port.now }
{
    has_port(links, controller, port)
}

fn primary_fits(links: &[Link], link: &Link, mode: BondMode) -> bool
    requires { rises link_cmp links.now ≡ true }
    ensures { result ≡ primary_ok mode link.now.bond.primary (ports_of links.now link.now.name) }
{
    match &link.bond.primary {
        Some(primary) => is_among_ports(links, &link.name, primary) && takes_primary(mode),
        None => true,
    }
}

fn bond_fits(links: &[Link], link: &Link) -> bool
    requires { rises link_cmp links.now ≡ true }
    ensures { result ≡ bond_fits links.now link.now link.now.kind }
{
    match &link.kind {
        Kind::Bond { mode } => primary_fits(links, link, *mode) && rest_ok(*mode, &link.bond),
        _ => true,
    }
}

/// Whether the times of a bridge are in range: a forward delay of 2 to 30 seconds, a hello time of 1 to 10 and a maximum
/// age of 6 to 40.
pub fn bridge_in_range(opts: &BridgeOpts) -> bool
    ensures { result ≡ bridge_in_range opts.now }
{
    let forward = opts.forward_delay;
    let hello = opts.hello_time;
    let age = opts.max_age;
    forward >= 2 && forward <= 30 && hello >= 1 && hello <= 10 && age >= 6 && age <= 40
}

/// Whether the cost of a port is at least 1 and its priority at most 63.
pub fn port_in_range(opts: &PortOpts) -> bool
    ensures { result ≡ port_in_range opts.now }
{
    opts.cost >= 1 && opts.priority <= 63
}

/// Part 11: whether bond options are right for the mode and the ports, and bridge and port options in range.
pub fn options_fit(links: &[Link]) -> bool
    requires { rises link_cmp links.now ≡ true }
    ensures { result ≡ options_fit links.now }
{
    links.iter().all(|link| {
        bond_fits(links, link) && bridge_in_range(&link.bridge) && port_in_range(&link.port)
    })
}
