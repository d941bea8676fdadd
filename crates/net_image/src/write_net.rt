//! Routes, rules, settings of DNS and whole lists as bytes, appended to others. Where memory is refused, a part of them
//! may stand behind the old bytes.
ghost use Rattle.std.specs.Prelude.{◌≡◌, ◌<◌, ◌≤◌, ◌++◌, length, true, OnOk};
ghost use Rattle.std.specs.List.{list_all};
ghost use Rattle.net_image.specs.Form.{number, counted, byte};
ghost use Rattle.net_image.specs.Fields.{address_form, domain};
ghost use Rattle.net_image.specs.Links.{link, is_writable};
ghost use Rattle.net_image.specs.Image.{route, rule, target, dns, settings, mark, lists, version_2};
ghost use Rattle.net_model.specs.declared.limits.TheConstants.{MAX_SERVERS, MAX_SEARCH};

use crate::stored::{PushTo, push_all};
use crate::write::{push_byte, push_family, push_u16, push_u32};
use crate::write_link::push_links;
use net_core::Net;
use net_model::{Addr, Dns, Domain, Link, OutOfMemory, Route, Rule, Target};

#[tactic(auto, unfolding(crate::specs::Image::route))]
pub(crate) fn push_route(of: &Route, out: &mut Vec<u8>) -> Result<(), OutOfMemory>
    ensures bytes { OnOk result (out.new.items ≡ out.old.items ++ route.write of.now) }
    ensures fits { OnOk result (route.fits of.now ≡ true) }
{
    (of.dest, (of.table, (of.metric, (of.gateway, of.dev)))).push_to(out)
}

#[tactic(auto, unfolding(crate::specs::Image::target))]
pub(crate) fn push_target(of: Target, out: &mut Vec<u8>) -> Result<(), OutOfMemory>
    ensures bytes { OnOk result (out.new.items ≡ out.old.items ++ target.write of) }
    ensures fits { OnOk result (target.fits of ≡ true) }
{
    match of {
        Target::Table(table) => (0u8, table).push_to(out),
        Target::Blackhole => push_byte(1, out),
        Target::Unreachable => push_byte(2, out),
        Target::Prohibit => push_byte(3, out),
    }
}

#[tactic(auto, unfolding(crate::specs::Image::rule))]
pub(crate) fn push_rule(of: Rule, out: &mut Vec<u8>) -> Result<(), OutOfMemory>
    ensures bytes { OnOk result (out.new.items ≡ out.old.items ++ rule.write of) }
    ensures fits { OnOk result (rule.fits of ≡ true) }
{
    push_u32(of.priority, out)?;
    push_family(of.v6, out)?;
    let marks = (of.mark, (of.mask, of.target));
    (of.src, (of.dst, (of.iif, marks))).push_to(out)
}

fn push_servers(of: &[Addr], out: &mut Vec<u8>) -> Result<(), OutOfMemory>
    requires { length of.now < 256 }
    ensures bytes { OnOk result (out.new.items ≡ out.old.items ++ (counted byte address_form).write of.now) }
    ensures fits { OnOk result ((counted byte address_form).fits of.now ≡ true) }
{
    push_byte(of.len() as u8, out)?;
    push_all(of, out)
}

fn push_search(of: &[Domain], out: &mut Vec<u8>) -> Result<(), OutOfMemory>
    requires { length of.now < 256 }
    ensures bytes { OnOk result (out.new.items ≡ out.old.items ++ (counted byte domain).write of.now) }
    ensures fits { OnOk result ((counted byte domain).fits of.now ≡ true) }
{
    push_byte(of.len() as u8, out)?;
    push_all(of, out)
}

#[tactic(auto, unfolding(crate::specs::Image::dns))]
fn push_dns(of: &Dns, out: &mut Vec<u8>) -> Result<(), OutOfMemory>
    requires servers { length of.now.servers < 256 }
    requires search { length of.now.search < 256 }
    ensures bytes { OnOk result (out.new.items ≡ out.old.items ++ dns.write of.now) }
    ensures fits { OnOk result (dns.fits of.now ≡ true) }
{
    push_servers(of.servers.items(), out)?;
    push_search(of.search.items(), out)?;
    Ok(())
}

// Settings of DNS that a network may have.
#[tactic(auto, unfolding(crate::specs::Image::settings))]
pub(crate) fn push_settings(of: &Dns, out: &mut Vec<u8>) -> Result<(), OutOfMemory>
    requires servers { length of.now.servers ≤ MAX_SERVERS }
    requires search { length of.now.search ≤ MAX_SEARCH }
    ensures bytes { OnOk result (out.new.items ≡ out.old.items ++ settings.write of.now) }
    ensures fits { OnOk result (settings.fits of.now ≡ true) }
{
    push_dns(of, out)
}

fn push_mark(out: &mut Vec<u8>) -> Result<(), OutOfMemory>
    ensures bytes { OnOk result (out.new.items ≡ out.old.items ++ version_2) }
{
    out.extend_from_slice(b"NMS2")?;
    Ok(())
}

// A count in two bytes, and the links.
fn push_links_counted(links: &[Link], out: &mut Vec<u8>) -> Result<(), OutOfMemory>
    requires few { length links.now < 65536 }
    requires writable { list_all is_writable links.now ≡ true }
    ensures bytes { OnOk result (out.new.items ≡ out.old.items ++ (counted (number 2) link).write links.now) }
    ensures fits { OnOk result ((counted (number 2) link).fits links.now ≡ true) }
{
    push_u16(links.len() as u16, out)?;
    push_links(links, out)
}

fn push_routes(routes: &[Route], out: &mut Vec<u8>) -> Result<(), OutOfMemory>
    requires { length routes.now < 65536 }
    ensures bytes { OnOk result (out.new.items ≡ out.old.items ++ (counted (number 2) route).write routes.now) }
    ensures fits { OnOk result ((counted (number 2) route).fits routes.now ≡ true) }
{
    push_u16(routes.len() as u16, out)?;
    push_all(routes, out)
}

fn push_rules(rules: &[Rule], out: &mut Vec<u8>) -> Result<(), OutOfMemory>
    requires { length rules.now < 65536 }
    ensures bytes { OnOk result (out.new.items ≡ out.old.items ++ (counted (number 2) rule).write rules.now) }
    ensures fits { OnOk result ((counted (number 2) rule).fits rules.now ≡ true) }
{
    push_u16(rules.len() as u16, out)?;
    push_all(rules, out)
}

/// Appends the lists of a network, behind the bytes of version 2.
#[tactic(auto, unfolding(crate::specs::Image::lists))]
pub(crate) fn push_lists(net: &Net, out: &mut Vec<u8>) -> Result<(), OutOfMemory>
    requires links { length net.now.links < 65536 }
    requires routes { length net.now.routes < 65536 }
    requires rules { length net.now.rules < 65536 }
    requires servers { length net.now.dns.servers < 256 }
    requires search { length net.now.dns.search < 256 }
    requires writable { list_all is_writable net.now.links ≡ true }
    ensures bytes { OnOk result (out.new.items ≡ out.old.items ++ (lists version_2).write net.now) }
    ensures fits { OnOk result ((lists version_2).fits net.now ≡ true) }
{
    push_mark(out)?;
    push_links_counted(net.links(), out)?;
    push_routes(net.routes(), out)?;
    push_rules(net.rules(), out)?;
    push_dns(net.dns(), out)?;
    Ok(())
}
