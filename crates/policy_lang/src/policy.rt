//! Policies.
ghost use Rattle.std.specs.Prelude.{◌≡◌, true, IfOk, unwrap_or};
ghost use Rattle.doc_tree.specs.Lookup.{get};
ghost use Rattle.policy_model.specs.Keys.{desired_word};
ghost use Rattle.doc_tree.specs.Shape.{shape, nothing, is_distinct, has_short_lists};
ghost use Rattle.policy_model.specs.Policies.{IsPolicy, policy_of_tree, sites_of};
ghost use Rattle.policy_lang.specs.Answers.{GivesPolicy, Passes};
ghost use Rattle.policy_lang.specs.Held.{data_of};

use crate::copy::copy_tree;
use crate::cycles::first_on_cycle;
use crate::places::copy_steps;
use crate::shape::{capture_at, captures_in, wrong_shape};
use crate::sites::{first_unknown, first_unread, sites};
use base_model::OutOfMemory;
use doc_tree::Tree;
use policy_model::{Capture, PolicyFault, Site};
use std::alloc::Global;
use std::marker::Model;

/// A policy: captures, and the tree that is wanted, whose places refer to them. It has none of the faults that
/// [`policy_of`] answers.
pub struct Policy {
    captures: Vec<Capture>,
    desired: Tree,
}

// By hand, so that a proof sees one call where one is dropped, and not a step for each part.
impl Drop for Policy {
    fn drop(self) {
        let Policy {
            captures: _,
            desired: _,
        } = self;
    }
}

impl Model for Policy {
    ghost use Rattle.doc_tree.specs.contracts.tree.Tree as tree;
    ghost use Rattle.std.specs.Coded.{codes};
    ghost use Rattle.policy_lang.specs.Held.{Held, data_of};
    ghost use Rattle.policy_model.specs.Policies.{IsPolicy};

    ghost Value = { Held };

    ghost coded = { Prim.hlevel (codes, tree.the_row.coded) };

    ghost view = { λ p. record { captures = p.captures.items; desired = p.desired } };

    ghost invariant = { λ p. IsPolicy (data_of (record { captures = p.captures.items; desired = p.desired })) };
}

impl Policy {
    /// The captures, in the order of the tree.
    pub fn captures(&self) -> &[Capture]
        ensures { result.now ≡ self.now.captures }
    {
        self.captures.as_slice()
    }

    /// The tree that is wanted.
    pub fn desired(&self) -> &Tree
        ensures { result.now ≡ self.now.desired }
    {
        &self.desired
    }

    /// Supplies what is known of each policy. It has no effect at run time.
    pub fn laws(&self)
        ensures { IsPolicy (data_of self.now) }
    {
        let _captures = &self.captures;
    }
}

// The first fault of captures that have these sites, and its place.
fn site_fault(
    alloc: Global,
    captures: &[Capture],
    desired: &Tree,
    sites: &[Site],
) -> Result<(), PolicyFault>
    requires { sites.now ≡ sites_of captures.now (shape desired.now) }
    ensures { Passes captures.now (shape desired.now) result }
{
    if let Some(site) = first_unread(sites) {
        return match copy_steps(alloc, &site.at) {
            Ok(path) => Err(PolicyFault::BadExpression(path)),
            Err(_) => Err(PolicyFault::OutOfMemory),
        };
    }
    if let Some(site) = first_unknown(captures, sites) {
        return match copy_steps(alloc, &site.at) {
            Ok(path) => Err(PolicyFault::UnknownCapture(path)),
            Err(_) => Err(PolicyFault::OutOfMemory),
        };
    }
    match first_on_cycle(alloc, captures) {
        Ok(None) => Ok(()),
        Ok(Some(capture)) => match capture_at(alloc, &capture.name) {
            Ok(path) => Err(PolicyFault::CaptureCycle(path)),
            Err(_) => Err(PolicyFault::OutOfMemory),
        },
        Err(_) => Err(PolicyFault::OutOfMemory),
    }
}

// The first fault of a policy of the right shape, and its place.
fn first_fault(alloc: Global, captures: &[Capture], desired: &Tree) -> Result<(), PolicyFault>
    ensures { Passes captures.now (shape desired.now) result }
{
    match sites(alloc, captures, desired) {
        Ok(sites) => site_fault(alloc, captures, desired, sites.as_slice()),
        Err(_) => Err(PolicyFault::OutOfMemory),
    }
}

// The tree that is wanted, or null where none is.
fn desired_in(alloc: Global, tree: &Tree) -> Result<Tree, OutOfMemory>
    ensures { IfOk result (λ desired. shape desired ≡ unwrap_or (get desired_word (shape tree.now)) nothing) }
{
    match tree.get("desired") {
        Some(desired) => Ok(copy_tree(alloc, desired)?),
        None => Ok(Tree::Null),
    }
}

/// The policy that a tree is, or its first fault: `WrongShape`, `BadExpression`, `UnknownCapture` or `CaptureCycle`. It also
/// answers `OutOfMemory`.
#[tactic(auto, unfolding(policy_model::specs::Policies::policy_of_tree))]
pub fn policy_of(alloc: Global, tree: &Tree) -> Result<Policy, PolicyFault>
    requires distinct { is_distinct (shape tree.now) ≡ true }
    requires short { has_short_lists (shape tree.now) ≡ true }
    ensures { GivesPolicy (policy_of_tree (shape tree.now)) result }
{
    if let Some(path) = wrong_shape(alloc, tree)? {
        return Err(PolicyFault::WrongShape(path));
    }
    let captures = captures_in(alloc, tree)?;
    let desired = desired_in(alloc, tree)?;
    first_fault(alloc, captures.as_slice(), &desired)?;
    Ok(Policy { captures, desired })
}
