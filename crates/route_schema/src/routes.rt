//! `routes`.
ghost use Rattle.std.specs.Prelude.{◌≡◌, ◌&&◌, true, IfOk};
ghost use Rattle.std.specs.List.{list_all};
ghost use Rattle.doc_tree.specs.Shape.{shape};
ghost use Rattle.base_model.specs.Lists.{is_short};
ghost use Rattle.document_model.specs.Entries.{is_route_entry};
ghost use Rattle.tree_schema.specs.Reached.{Answers};
ghost use Rattle.route_schema.specs.Routes.{route_table, no_route, has_own_gateway, with_destination, with_device, with_own_gateway, checked_route, route, routes_table, routes};

use crate::words::{Addresses, absence, subnet, table};
use doc_tree::Tree;
use document_model::RouteEntry;
use net_model::Items;
use tree_schema::{
    Item, Node, Reader, Reason, Section, Stop, holds_or, name, read_list, read_map, unless_empty,
    unless_minus_one,
};

struct RouteKeys;

impl Section for RouteKeys {
    type Entry = RouteEntry;

    ghost table = { λ _. route_table };

    ghost holds = { λ _ _. true };

    fn read_key(
        &self,
        reader: &mut Reader,
        key: &str,
        value: &Tree,
        entry: &mut RouteEntry,
    ) -> Result<(), Stop> {
        match key {
            "state" => {
                entry.absent = absence(value)?;
                Ok(())
            }
            "destination" => {
                entry.dest = Some(subnet(value)?);
                Ok(())
            }
            "next-hop-interface" => {
                entry.dev = Some(name(value)?);
                Ok(())
            }
            "next-hop-address" => {
                entry.gateway = unless_empty(&Addresses, value)?;
                Ok(())
            }
            "metric" => {
                entry.metric = unless_minus_one(value)?;
                Ok(())
            }
            "table-id" => {
                entry.table = Some(table(value)?);
                Ok(())
            }
            "weight" | "source" | "route-type" => Err(Stop::Refused(Reason::Unsupported)),
            _ => Err(Stop::Refused(Reason::UnknownKey)),
        }
    }
}

fn has_own_gateway(entry: &RouteEntry) -> bool
    ensures { result ≡ has_own_gateway entry.now }
{
    match (entry.gateway, entry.dest) {
        (Some(gateway), Some(dest)) => gateway.is_v6() == dest.is_v6(),
        _ => true,
    }
}

fn checked_route(reader: &mut Reader, entry: RouteEntry) -> Result<RouteEntry, Stop>
    ensures read { Answers (checked_route entry) reader.old reader.new result }
    ensures right { IfOk result (λ e. is_route_entry e ≡ true) }
{
    let named = entry.absent || entry.dest.is_some();
    let entry = holds_or(reader, "destination", Reason::Missing, named, entry)?;
    let held = entry.absent || entry.dev.is_some();
    let entry = holds_or(reader, "next-hop-interface", Reason::Missing, held, entry)?;
    let own = has_own_gateway(&entry);
    let entry = holds_or(reader, "next-hop-address", Reason::OutOfRange, own, entry)?;
    Ok(entry)
}

struct Routes;

impl Item for Routes {
    type Value = RouteEntry;

    ghost reading = { λ _. route };

    ghost holds = { λ _ e. is_route_entry e };

    fn read(&self, reader: &mut Reader, tree: &Tree) -> Result<Option<RouteEntry>, Stop> {
        let mut entry = RouteEntry {
            absent: false,
            dest: None,
            dev: None,
            gateway: None,
            metric: None,
            table: None,
        };
        read_map(&RouteKeys, reader, tree, &mut entry)?;
        let entry = checked_route(reader, entry)?;
        Ok(Some(entry))
    }
}

struct SectionKeys;

impl Section for SectionKeys {
    type Entry = Items<RouteEntry>;

    ghost table = { λ _. routes_table };

    ghost holds = { λ _ routes. is_short routes && list_all is_route_entry routes };

    fn read_key(
        &self,
        reader: &mut Reader,
        key: &str,
        value: &Tree,
        entry: &mut Items<RouteEntry>,
    ) -> Result<(), Stop> {
        match key {
            "config" => {
                *entry = read_list(&Routes, reader, value)?;
                Ok(())
            }
            "running" => Ok(()),
            _ => Err(Stop::Refused(Reason::UnknownKey)),
        }
    }
}

/// The section of the routes.
pub(crate) struct RouteSection;

impl Node for RouteSection {
    type Value = Items<RouteEntry>;

    ghost reading = { λ _. routes };

    ghost holds = { λ _ routes. is_short routes && list_all is_route_entry routes };

    fn read(&self, reader: &mut Reader, tree: &Tree) -> Result<Items<RouteEntry>, Stop> {
        let mut entries = Items::of(Vec::new(reader.alloc()));
        read_map(&SectionKeys, reader, tree, &mut entries)?;
        Ok(entries)
    }
}
