//! Arrows between places: drawing them, what they lead to, and whether they lead round; with a refused allocation as this
//! crate's calls answer one.
ghost use Rattle.std.specs.Prelude.{◌≡◌, ◌<◌, ◌++◌, ◌∷◌, [], length, get_or, set, replicate, IfOk, OnOk};
ghost use Rattle.reach.specs.Reach.{IsGraph, IsLeast};
ghost use Rattle.reach.specs.Cycle.{Decides};

use net_model::Items;
use std::alloc::{AllocError, Global};

/// No arrows between so many places. The error is that memory is out.
pub fn no_arrows(alloc: Global, len: usize) -> Result<Vec<Items<usize>>, AllocError>
    ensures { IfOk result (λ arrows. arrows.items ≡ replicate len []) }
{
    let mut arrows = Vec::new(alloc);
    for _ in 0..len {
        arrows.push(Items::of(Vec::new(alloc)))?;
    }
    Ok(arrows)
}

/// Adds an arrow from one place to another, behind those from there. The error is that memory is out.
pub fn add_arrow(arrows: &mut [Items<usize>], from: usize, to: usize) -> Result<(), AllocError>
    requires { from < length arrows.old }
    ensures { OnOk result (arrows.new ≡ set arrows.old from (get_or arrows.old from [] ++ to ∷ [])) }
{
    match arrows[from].push(to) {
        Ok(()) => Ok(()),
        Err(_) => Err(AllocError),
    }
}

/// Which places are reachable from the sources, in one step or more. The error is that memory is out.
pub fn closure(
    alloc: Global,
    arrows: &[Items<usize>],
    starts: &[bool],
) -> Result<Vec<bool>, AllocError>
    requires starts { length starts.now ≡ length arrows.now }
    requires graph { IsGraph arrows.now }
    ensures { IfOk result (λ marks. IsLeast arrows.now starts.now marks.items) }
{
    match reach::closure(alloc, arrows, starts) {
        Ok(marks) => Ok(marks),
        Err(_) => Err(AllocError),
    }
}

/// Whether the arrows lead round in a cycle. The error is that memory is out.
pub fn has_cycle(alloc: Global, arrows: &[Items<usize>]) -> Result<bool, AllocError>
    requires { IsGraph arrows.now }
    ensures { IfOk result (λ cycle. Decides cycle arrows.now) }
{
    match reach::has_cycle(alloc, arrows) {
        Ok(cycle) => Ok(cycle),
        Err(_) => Err(AllocError),
    }
}
