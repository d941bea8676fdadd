//! Which links depend on one: a walk from that one alone, by the indexes.
ghost use Rattle.std.specs.Prelude.{◌≡◌, ◌<◌, true, length, slice_index_or, IfOk, OnOk};
ghost use Rattle.net_model.specs.Name.{same_bytes};
ghost use Rattle.net_model.specs.Words.{rises, is_among};
ghost use Rattle.net_model.specs.Order.{link_cmp};
ghost use Rattle.net_model.specs.Links.{is_named, is_port_of};
ghost use Rattle.net_model.specs.Dependence.{depends_on};
ghost use Rattle.link_step.specs.Dependents.{MarksAll, AreDependents};

use net_core::Net;
use net_lists::place_of;
use net_model::{Link, Name, OutOfMemory};
use std::alloc::Global;

// Marks the named link, and leaves it to be followed, where it is there and new.
fn mark(
    links: &[Link],
    name: &Name,
    marks: &mut [bool],
    left: &mut Vec<usize>,
) -> Result<(), OutOfMemory>
    requires in_order { rises link_cmp links.now ≡ true }
    requires whole { length marks.old ≡ length links.now }
    ensures { OnOk result ((d : _) → MarksAll links.now d (is_named name.now) marks.old marks.new left.old.items left.new.items) }
{
    let at = match place_of(links, name) {
        Some(at) => at,
        None => return Ok(()),
    };
    if marks[at] {
        return Ok(());
    }
    left.push(at)?;
    marks[at] = true;
    Ok(())
}

// Marks the links of these names.
fn mark_each(
    links: &[Link],
    names: &[Name],
    marks: &mut [bool],
    left: &mut Vec<usize>,
) -> Result<(), OutOfMemory>
    requires in_order { rises link_cmp links.now ≡ true }
    requires whole { length marks.old ≡ length links.now }
    ensures { OnOk result ((d : _) → MarksAll links.now d (λ l. is_among names.now l.name) marks.old marks.new left.old.items left.new.items) }
{
    for name in names {
        mark(links, name, marks, left)?;
    }
    Ok(())
}

// Marks the controller of a link, if it has one.
fn mark_controller(
    links: &[Link],
    link: &Link,
    marks: &mut [bool],
    left: &mut Vec<usize>,
) -> Result<(), OutOfMemory>
    requires in_order { rises link_cmp links.now ≡ true }
    requires whole { length marks.old ≡ length links.now }
    ensures { OnOk result ((d : _) → MarksAll links.now d (λ l. is_port_of l.name link.now) marks.old marks.new left.old.items left.new.items) }
{
    match &link.controller {
        Some(controller) => mark(links, controller, marks, left),
        None => Ok(()),
    }
}

// Marks the links that depend on the one at a place: its controller, and the VLANs directly over it.
fn follow(
    net: &Net,
    marks: &mut [bool],
    left: &mut Vec<usize>,
    place: usize,
) -> Result<(), OutOfMemory>
    requires whole { length marks.old ≡ length net.now.links }
    requires inside { place < length net.now.links }
    ensures { OnOk result ((d : _) → MarksAll net.now.links d (λ l. depends_on l (slice_index_or net.now.links place d)) marks.old marks.new left.old.items left.new.items) }
{
    net.laws();
    let links = net.links();
    let link = &links[place];
    mark_controller(links, link, marks, left)?;
    mark_each(links, net.over(&link.name), marks, left)
}

/// Marks, by their places, the link at this place and all that depend on it, through any others. Each of them is followed
/// once, and no other link is looked at.
pub(crate) fn dependents(alloc: Global, net: &Net, at: usize) -> Result<Vec<bool>, OutOfMemory>
    requires { at < length net.now.links }
    ensures long { IfOk result (λ marks. length marks.items ≡ length net.now.links) }
    ensures dependents { IfOk result (λ marks. (d : _) → AreDependents net.now.links d at marks.items) }
{
    net.laws();
    let mut marks = vec![in alloc; false; net.links().len()]?;
    let mut left = Vec::new(alloc);
    left.push(at)?;
    marks[at] = true;
    while let Some(place) = left.pop() {
        follow(net, &mut marks, &mut left, place)?;
    }
    Ok(marks)
}
