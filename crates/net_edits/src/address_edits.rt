//! Edits of the addresses of links, as `parts` makes them beside the count of all.
ghost use Rattle.std.specs.Prelude.{◌≡◌, ◌+◌, ◌≤◌, true, false, not, filter, insert, length, IfOk, OnOk, OnErr};
ghost use Rattle.std.specs.List.{list_any, list_all};
ghost use Rattle.std.specs.Option.{option_map_or};
ghost use Rattle.net_model.specs.Words.{rises, put, is_among};
ghost use Rattle.net_model.specs.Order.{name_cmp, block_cmp, link_cmp};
ghost use Rattle.net_model.specs.Links.{find_link, named_passes};
ghost use Rattle.net_model.specs.Valid.{address_count, same_block};
ghost use Rattle.net_model.specs.Edits.{edit_link, address_put, address_removed, taken_down};

use base_model::{Items, OutOfMemory};
use net_lists::{find_link, place_of, prefix_position};
use net_model::{Link, Name, Position, Prefix};
use std::mem;

/// A count with the addresses of one link more. More than a usize holds wouldn't fit into memory.
pub fn counted(count: usize, link: &Link) -> Result<usize, OutOfMemory>
    ensures { IfOk result (λ n. n ≡ count + length link.now.addrs) }
{
    match count.checked_add(link.addrs.items().len()) {
        Some(sum) => Ok(sum),
        None => Err(OutOfMemory),
    }
}

/// How many addresses the links have together.
pub fn count_all(links: &[Link]) -> Result<usize, OutOfMemory>
    ensures { IfOk result (λ n. n ≡ address_count links.now) }
{
    let mut count: usize = 0;
    let mut left = links;
    while let Some((link, rest)) = left.split_first() {
        count = counted(count, link)?;
        left = rest;
    }
    Ok(count)
}

// How many addresses the named link has, and 0 where no link has the name.
fn count_on(links: &[Link], name: &Name) -> usize
    requires { rises link_cmp links.now ≡ true }
    ensures { result ≡ option_map_or (λ l. length l.addrs) (find_link name.now links.now) 0 }
{
    match find_link(links, name) {
        Some(link) => link.addrs.items().len(),
        None => 0,
    }
}

/// How many addresses the links have without those of these names, each found by binary search.
pub fn count_without(links: &[Link], all: usize, goes: &[Name]) -> usize
    requires in_order { rises link_cmp links.now ≡ true }
    requires names { rises name_cmp goes.now ≡ true }
    requires count { all ≡ address_count links.now }
    ensures { result ≡ address_count (filter (λ l. not (is_among goes.now l.name)) links.now) }
{
    let mut count = all;
    let mut left = goes;
    while let Some((name, rest)) = left.split_first() {
        count -= count_on(links, name);
        left = rest;
    }
    count
}

// Where an address belongs that isn't there.
fn address_gap(addrs: &[Prefix], addr: &Prefix) -> usize
    requires in_order { rises block_cmp addrs.now ≡ true }
    requires new { list_any (same_block addr.now) addrs.now ≡ false }
    ensures inside { result ≤ length addrs.now }
    ensures puts { insert addrs.now result addr.now ≡ put block_cmp addr.now addrs.now }
{
    match prefix_position(addrs, addr) {
        Position::At(_) => 0,
        Position::Gap(i) => i,
    }
}

fn give(link: &mut Link, addr: &Prefix) -> Result<(), OutOfMemory>
    requires in_order { rises block_cmp link.old.addrs ≡ true }
    requires new { list_any (same_block addr.now) link.old.addrs ≡ false }
    ensures ok { OnOk result (link.new ≡ address_put addr.now link.old) }
    ensures err { OnErr result (link.new ≡ link.old) }
{
    let at = address_gap(link.addrs.items(), addr);
    link.addrs.insert(at, *addr)
}

fn give_named(links: &mut [Link], name: &Name, addr: &Prefix) -> Result<usize, OutOfMemory>
    requires names { rises link_cmp links.old ≡ true }
    requires in_order { list_all (λ l. rises block_cmp l.addrs) links.old ≡ true }
    requires new { named_passes (λ l. list_any (same_block addr.now) l.addrs) links.old name.now ≡ false }
    ensures ok { OnOk result (links.new ≡ edit_link name.now (address_put addr.now) links.old) }
    ensures more { IfOk result (λ n. address_count links.new ≡ address_count links.old + n) }
    ensures one { IfOk result (λ n. n ≤ 1) }
    ensures err { OnErr result (links.new ≡ links.old) }
{
    match place_of(links, name) {
        Some(i) => {
            give(&mut links[i], addr)?;
            Ok(1)
        }
        None => Ok(0),
    }
}

/// Gives the named link an address that it doesn't have, and says how many came: none where no link has the name.
pub fn put_address(links: &mut Vec<Link>, name: &Name, addr: &Prefix) -> Result<usize, OutOfMemory>
    requires names { rises link_cmp links.old.items ≡ true }
    requires in_order { list_all (λ l. rises block_cmp l.addrs) links.old.items ≡ true }
    requires new { named_passes (λ l. list_any (same_block addr.now) l.addrs) links.old.items name.now ≡ false }
    ensures ok { OnOk result (links.new.items ≡ edit_link name.now (address_put addr.now) links.old.items) }
    ensures more { IfOk result (λ n. address_count links.new.items ≡ address_count links.old.items + n) }
    ensures one { IfOk result (λ n. n ≤ 1) }
    ensures err { OnErr result (links.new.items ≡ links.old.items) }
{
    give_named(links, name, addr)
}

fn same_block(a: &Prefix, b: &Prefix) -> bool
    ensures { result ≡ same_block a.now b.now }
{
    a == b
}

fn keep_others(addrs: &mut Vec<Prefix>, addr: &Prefix)
    ensures { addrs.new.items ≡ filter (λ b. not (same_block addr.now b)) addrs.old.items }
{
    addrs.retain(|own| !same_block(addr, own));
}

fn leave_out(addrs: &mut Items<Prefix>, addr: &Prefix)
    ensures { addrs.new ≡ filter (λ b. not (same_block addr.now b)) addrs.old }
{
    let alloc = *addrs.items().allocator();
    let mut kept = mem::replace(addrs, Items::of(Vec::new(alloc))).into_vec();
    keep_others(&mut kept, addr);
    *addrs = Items::of(kept);
}

fn take_address(link: &mut Link, addr: &Prefix) -> usize
    ensures link { link.new ≡ address_removed addr.now link.old }
    ensures gone { length link.new.addrs + result ≡ length link.old.addrs }
{
    let count = link.addrs.items().len();
    leave_out(&mut link.addrs, addr);
    count - link.addrs.items().len()
}

fn take_named(links: &mut [Link], name: &Name, addr: &Prefix) -> usize
    requires { rises link_cmp links.old ≡ true }
    ensures edit { links.new ≡ edit_link name.now (address_removed addr.now) links.old }
    ensures rise { rises link_cmp links.new ≡ true }
    ensures gone { address_count links.new + result ≡ address_count links.old }
{
    match place_of(links, name) {
        Some(i) => take_address(&mut links[i], addr),
        None => 0,
    }
}

/// Takes an address from the named link, and says how many went.
pub fn remove_address(links: &mut Vec<Link>, name: &Name, addr: &Prefix) -> usize
    requires { rises link_cmp links.old.items ≡ true }
    ensures edit { links.new.items ≡ edit_link name.now (address_removed addr.now) links.old.items }
    ensures rise { rises link_cmp links.new.items ≡ true }
    ensures gone { address_count links.new.items + result ≡ address_count links.old.items }
{
    take_named(links, name, addr)
}

fn keep_v4(addrs: &mut Vec<Prefix>)
    ensures { addrs.new.items ≡ filter (λ b. not b.addr.v6) addrs.old.items }
{
    addrs.retain(|prefix| !prefix.addr().is_v6());
}

fn leave_out_v6(addrs: &mut Items<Prefix>)
    ensures { addrs.new ≡ filter (λ b. not b.addr.v6) addrs.old }
{
    let alloc = *addrs.items().allocator();
    let mut kept = mem::replace(addrs, Items::of(Vec::new(alloc))).into_vec();
    keep_v4(&mut kept);
    *addrs = Items::of(kept);
}

fn take_down(link: &mut Link) -> usize
    ensures link { link.new ≡ taken_down link.old }
    ensures gone { length link.new.addrs + result ≡ length link.old.addrs }
{
    link.up = false;
    let count = link.addrs.items().len();
    leave_out_v6(&mut link.addrs);
    count - link.addrs.items().len()
}

fn lower_named(links: &mut [Link], name: &Name) -> usize
    requires { rises link_cmp links.old ≡ true }
    ensures edit { links.new ≡ edit_link name.now taken_down links.old }
    ensures gone { address_count links.new + result ≡ address_count links.old }
{
    match place_of(links, name) {
        Some(i) => take_down(&mut links[i]),
        None => 0,
    }
}

/// Takes the named link down, with its IPv6 addresses, and says how many of these went.
pub fn lower(links: &mut Vec<Link>, name: &Name) -> usize
    requires { rises link_cmp links.old.items ≡ true }
    ensures edit { links.new.items ≡ edit_link name.now taken_down links.old.items }
    ensures gone { address_count links.new.items + result ≡ address_count links.old.items }
{
    lower_named(links, name)
}
