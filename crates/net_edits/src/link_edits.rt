//! Edits of links alone, as `parts` makes them beside those of the indexes.
ghost use Rattle.std.specs.Prelude.{◌≡◌, ◌≤◌, ◌<◌, ◌+◌, true, not, None, is_some, map, filter, length, insert, vec_len, vec_capacity};
ghost use Rattle.std.specs.List.{list_all};
ghost use Rattle.net_model.specs.Words.{rises, put, is_among};
ghost use Rattle.net_model.specs.Order.{name_cmp, link_cmp};
ghost use Rattle.net_model.specs.Links.{find_link, is_named, named_passes};
ghost use Rattle.net_model.specs.Edits.{edit_link, attached, detached, is_free_but_for, unless_gone, port_freed, freed};

use net_lists::{find_link, link_position};
use net_model::{Link, Name, PortOpts, Position};

// Where a link belongs whose name isn't there.
fn link_gap(links: &[Link], link: &Link) -> usize
    requires in_order { rises link_cmp links.now ≡ true }
    requires new { find_link link.now.name links.now ≡ None }
    ensures inside { result ≤ length links.now }
    ensures puts { insert links.now result link.now ≡ put link_cmp link.now links.now }
{
    match link_position(links, &link.name) {
        Position::At(_) => 0,
        Position::Gap(i) => i,
    }
}

/// Inserts a link of a name that none has, where there is room for it.
pub fn insert_link(links: &mut Vec<Link>, link: Link)
    requires in_order { rises link_cmp links.old.items ≡ true }
    requires new { find_link link.name links.old.items ≡ None }
    requires room { vec_len links.old < vec_capacity links.old }
    ensures items { links.new.items ≡ put link_cmp link links.old.items }
    ensures len { vec_len links.new ≡ vec_len links.old + 1 }
    ensures capacity { vec_capacity links.old ≤ vec_capacity links.new }
{
    let at = link_gap(links, &link);
    match links.insert(at, link) {
        Ok(()) => {}
        Err(_) => unreachable!(),
    }
}

fn attach(link: &mut Link, controller: &Name)
    ensures { link.new ≡ attached controller.now link.old }
{
    link.controller = Some(*controller);
    link.port = PortOpts::defaults();
}

fn attach_at(links: &mut [Link], port: &Name, controller: &Name)
    requires { rises link_cmp links.old ≡ true }
    ensures { links.new ≡ edit_link port.now (attached controller.now) links.old }
{
    match link_position(links, port) {
        Position::At(i) => attach(&mut links[i], controller),
        Position::Gap(_) => {}
    }
}

/// Makes the named link a port of the controller.
pub fn attach_named(links: &mut Vec<Link>, port: &Name, controller: &Name)
    requires { rises link_cmp links.old.items ≡ true }
    ensures { links.new.items ≡ edit_link port.now (attached controller.now) links.old.items }
{
    attach_at(links, port, controller);
}

fn detach(link: &mut Link, port: &Name)
    ensures { link.new ≡ detached port.now link.old }
{
    if link.name == *port {
        link.controller = None;
        link.port = PortOpts::defaults();
    }
    if let Some(primary) = link.bond.primary {
        if primary == *port {
            link.bond.primary = None;
        }
    }
}

fn detach_each(links: &mut [Link], port: &Name)
    ensures { links.new ≡ map (detached port.now) links.old }
{
    for link in links.iter_mut() {
        detach(link, port);
    }
}

/// Detaches the named port, which is then no link's primary.
pub fn detach_named(links: &mut Vec<Link>, port: &Name)
    ensures { links.new.items ≡ map (detached port.now) links.old.items }
{
    detach_each(links, port);
}

fn detach_at(links: &mut [Link], name: &Name, port: &Name)
    requires { rises link_cmp links.old ≡ true }
    ensures edit { links.new ≡ edit_link name.now (detached port.now) links.old }
    ensures rise { rises link_cmp links.new ≡ true }
{
    match link_position(links, name) {
        Position::At(i) => detach(&mut links[i], port),
        Position::Gap(_) => {}
    }
}

fn detach_both(links: &mut [Link], port: &Name, controller: &Name)
    requires in_order { rises link_cmp links.old ≡ true }
    requires alone { list_all (is_free_but_for port.now controller.now) links.old ≡ true }
    ensures { links.new ≡ map (detached port.now) links.old }
{
    detach_at(links, controller, port);
    detach_at(links, port, port);
}

/// Detaches the named port of a controller that alone may have it as its primary: these two are found by binary search.
pub fn detach_from(links: &mut Vec<Link>, port: &Name, controller: &Name)
    requires in_order { rises link_cmp links.old.items ≡ true }
    requires alone { list_all (is_free_but_for port.now controller.now) links.old.items ≡ true }
    ensures { links.new.items ≡ map (detached port.now) links.old.items }
{
    detach_both(links, port, controller);
}

/// Whether the name is one of these, which are sorted, by binary search.
pub fn is_among(names: &[Name], name: &Name) -> bool
    requires { rises name_cmp names.now ≡ true }
    ensures { result ≡ is_among names.now name.now }
{
    match names.binary_search(name) {
        Ok(_) => true,
        Err(_) => false,
    }
}

fn unless_gone(goes: &[Name], name: Option<Name>) -> Option<Name>
    requires { rises name_cmp goes.now ≡ true }
    ensures { result ≡ unless_gone (is_among goes.now) name }
{
    match name {
        Some(name) => {
            if is_among(goes, &name) {
                None
            } else {
                Some(name)
            }
        }
        None => None,
    }
}

fn port_freed(link: &Link, goes: &[Name]) -> PortOpts
    requires { rises name_cmp goes.now ≡ true }
    ensures { result ≡ port_freed (is_among goes.now) link.now }
{
    match &link.controller {
        Some(controller) => {
            if is_among(goes, controller) {
                PortOpts::defaults()
            } else {
                link.port
            }
        }
        None => link.port,
    }
}

fn free(link: &mut Link, goes: &[Name])
    requires { rises name_cmp goes.now ≡ true }
    ensures { link.new ≡ freed (is_among goes.now) link.old }
{
    link.port = port_freed(link, goes);
    link.controller = unless_gone(goes, link.controller);
    link.bond.primary = unless_gone(goes, link.bond.primary);
}

fn free_each(links: &mut [Link], goes: &[Name])
    requires { rises name_cmp goes.now ≡ true }
    ensures { links.new ≡ map (freed (is_among goes.now)) links.old }
{
    for link in links.iter_mut() {
        free(link, goes);
    }
}

/// Leaves the links without naming what goes.
pub fn free_links(links: &mut Vec<Link>, goes: &[Name])
    requires { rises name_cmp goes.now ≡ true }
    ensures { links.new.items ≡ map (freed (is_among goes.now)) links.old.items }
{
    free_each(links, goes);
}

/// Whether the named link has a controller.
#[tactic(auto, using(net_model::proofs::lemmas::Found::named_passes_found))]
pub fn is_port(links: &[Link], name: &Name) -> bool
    requires { rises link_cmp links.now ≡ true }
    ensures { result ≡ named_passes (λ l. is_some l.controller) links.now name.now }
{
    find_link(links, name).is_some_and(|link| link.controller.is_some())
}

// Takes the named link out, where binary search finds it, and moves those after it up.
fn leave_out(links: &mut Vec<Link>, name: &Name)
    requires { rises link_cmp links.old.items ≡ true }
    ensures { links.new.items ≡ filter (λ l. not (is_named name.now l)) links.old.items }
{
    match link_position(links, name) {
        Position::At(i) => {
            links.remove(i);
        }
        Position::Gap(_) => {}
    }
}

/// Leaves the links that don't go. One that goes alone is found by binary search.
pub fn keep_links(links: &mut Vec<Link>, goes: &[Name])
    requires in_order { rises link_cmp links.old.items ≡ true }
    requires names { rises name_cmp goes.now ≡ true }
    ensures { links.new.items ≡ filter (λ l. not (is_among goes.now l.name)) links.old.items }
{
    match goes {
        [name] => leave_out(links, name),
        _ => links.retain(|link| !is_among(goes, &link.name)),
    }
}
