//! The absent entries of routes, to find whether one of them matches a route.
ghost use Rattle.std.specs.Prelude.{◌≡◌, ◌++◌, ◌∷◌, [], List, None, true, if◌then◌else◌, IfOk, OnOk};
ghost use Rattle.std.specs.List.{list_any};
ghost use Rattle.std.specs.BTreeSet.{contains, Updates};
ghost use Rattle.document_model.specs.declared.RouteEntry.{RouteEntry};
ghost use Rattle.merge_model.specs.Routes.{is_route_absent};
ghost use Rattle.route_merge.specs.AbsentRoutes.{stated_cmp, stated_of, alike, narrowed, HasShapes, HasStated};

use document_model::RouteEntry;
use net_model::{Addr, Name, Route, Subnet, TableId};
use std::alloc::{AllocError, Global};
use std::collections::BTreeSet;
use std::marker::Model;

// What an absent entry states.
#[derive(Clone, Copy, PartialEq, Eq, PartialOrd, Ord)]
pub(crate) struct StatedRoute {
    dest: Option<Subnet>,
    dev: Option<Name>,
    gateway: Option<Addr>,
    metric: Option<u32>,
    table: Option<TableId>,
}

// The same as an item of a set.
#[derive(Clone, Copy, PartialEq, Eq, PartialOrd, Ord)]
pub(crate) struct Stated {
    route: StatedRoute,
}

impl Model for Stated {
    ghost use Rattle.route_merge.specs.declared.absent_routes.StatedRoute.{StatedRoute};

    ghost Value = { StatedRoute };

    ghost view = { λ s. s.route };

    ghost inverse = { λ r. record { route = r } };
}

fn stated_of(entry: &RouteEntry) -> StatedRoute
    ensures { result ≡ stated_of entry.now }
{
    StatedRoute {
        dest: entry.dest,
        dev: entry.dev,
        gateway: entry.gateway,
        metric: entry.metric,
        table: entry.table,
    }
}

// Whether both state the same fields, whatever their values.
fn alike(a: &StatedRoute, b: &StatedRoute) -> bool
    ensures { result ≡ alike a.now b.now }
{
    a.dest.is_some() == b.dest.is_some()
        && a.dev.is_some() == b.dev.is_some()
        && a.gateway.is_some() == b.gateway.is_some()
        && a.metric.is_some() == b.metric.is_some()
        && a.table.is_some() == b.table.is_some()
}

fn addr_if(stated: bool, addr: Option<Addr>) -> Option<Addr>
    ensures { result ≡ (if stated then addr else None) }
{
    if stated { addr } else { None }
}

// What an entry that states these fields has to state to match the route.
fn narrowed(shape: &StatedRoute, route: &Route) -> StatedRoute
    ensures { result ≡ narrowed shape.now route.now }
{
    StatedRoute {
        dest: shape.dest.is_some().then_some(route.dest),
        dev: shape.dev.is_some().then_some(route.dev),
        gateway: addr_if(shape.gateway.is_some(), route.gateway),
        metric: shape.metric.is_some().then_some(route.metric),
        table: shape.table.is_some().then_some(route.table),
    }
}

fn has_shape(shapes: &[StatedRoute], stated: &StatedRoute) -> bool
    ensures { result ≡ list_any (λ s. alike s stated.now) shapes.now }
{
    shapes.iter().any(|shape| alike(shape, stated))
}

// One more, unless one that states the same fields is there.
#[tactic(auto, using(crate::proofs::AbsentRoutes::shape_passed, crate::proofs::AbsentRoutes::shape_pushed))]
fn push_shape(shapes: &mut Vec<StatedRoute>, entry: &RouteEntry) -> Result<(), AllocError>
    ensures { OnOk result ((es : List RouteEntry) → HasShapes shapes.old.items es → HasShapes shapes.new.items (es ++ entry.now ∷ [])) }
{
    if !entry.absent {
        return Ok(());
    }
    let stated = stated_of(entry);
    if has_shape(shapes, &stated) {
        return Ok(());
    }
    shapes.push(stated)?;
    Ok(())
}

fn insert(set: &mut BTreeSet<Stated>, stated: StatedRoute) -> Result<(), AllocError>
    ensures { OnOk result (Updates stated_cmp set.old set.new stated true) }
{
    set.insert(Stated { route: stated })?;
    Ok(())
}

#[tactic(auto, using(crate::proofs::AbsentRoutes::stated_kept, crate::proofs::AbsentRoutes::stated_pushed))]
fn push_stated(set: &mut BTreeSet<Stated>, entry: &RouteEntry) -> Result<(), AllocError>
    ensures { OnOk result ((es : List RouteEntry) → HasStated set.old es → HasStated set.new (es ++ entry.now ∷ [])) }
{
    if !entry.absent {
        return Ok(());
    }
    insert(set, stated_of(entry))
}

// Whether an entry that states these fields matches the route.
fn matches_shape(set: &BTreeSet<Stated>, shape: &StatedRoute, route: &Route) -> bool
    ensures { result ≡ contains stated_cmp set.now (narrowed shape.now route.now) }
{
    set.contains(&Stated {
        route: narrowed(shape, route),
    })
}

fn matches_any(shapes: &[StatedRoute], set: &BTreeSet<Stated>, route: &Route) -> bool
    ensures { result ≡ list_any (λ s. contains stated_cmp set.now (narrowed s route.now)) shapes.now }
{
    shapes.iter().any(|shape| matches_shape(set, shape, route))
}

/// Entries of routes, by what the absent ones state: which fields some of them state, and a set of all that they state. A
/// route is looked up once for each choice of fields, of which there are at most 32.
#[derive(Drop)]
pub(crate) struct AbsentRoutes<'a> {
    entries: &'a [RouteEntry],
    shapes: Vec<StatedRoute>,
    stated: BTreeSet<Stated>,
}

impl<'a> Model for AbsentRoutes<'a> {
    ghost use Rattle.std.specs.Prelude.{List};
    ghost use Rattle.document_model.specs.declared.RouteEntry.{RouteEntry};
    ghost use Rattle.route_merge.specs.AbsentRoutes.{HasShapes, HasStated};

    ghost Value = { List RouteEntry };

    ghost view = { λ a. a.entries.now };

    ghost invariant = { λ a. HasShapes a.shapes.items a.entries.now × HasStated a.stated a.entries.now };
}

impl<'a> AbsentRoutes<'a> {
    /// The entries with their index. The error is that memory is out.
    pub(crate) fn of(
        alloc: Global,
        entries: &'a [RouteEntry],
    ) -> Result<AbsentRoutes<'a>, AllocError>
        ensures { IfOk result (λ absent. absent ≡ entries.now) }
    {
        let mut shapes = Vec::new(alloc);
        let mut stated = BTreeSet::new(alloc);
        for entry in entries {
            push_shape(&mut shapes, entry)?;
            push_stated(&mut stated, entry)?;
        }
        Ok(AbsentRoutes {
            entries,
            shapes,
            stated,
        })
    }

    /// Whether an absent entry matches the route.
    pub(crate) fn has(&self, route: &Route) -> bool
        ensures { result ≡ is_route_absent self.now route.now }
    {
        matches_any(&self.shapes, &self.stated, route)
    }
}
