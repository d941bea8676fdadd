//! A plan in the making.
ghost use Rattle.std.specs.Prelude.{◌≡◌, ◌++◌, true, [], Ok, IfOk, IfSome, OnOk, OnErr, MatchOption, IsPermutation, IsSorted};
ghost use Rattle.net_model.specs.Words.{is_among, rises, sorted};
ghost use Rattle.net_model.specs.Order.{link_cmp, name_cmp};
ghost use Rattle.net_model.specs.Valid.{names_differ};
ghost use Rattle.net_model.specs.Hardware.{hardware};
ghost use Rattle.net_model.specs.NetData.{IsNet};
ghost use Rattle.net_model.specs.Edits.{without};
ghost use Rattle.kernel_model.specs.Kernel.{step, after};
ghost use Rattle.link_planner.specs.Drafts.{Holds, IsSafe, draft_of, with_call, with_created, with_deleted, with_links, with_some};
ghost use Rattle.link_planner.specs.Kept.{is_kept};
ghost use Rattle.link_planner.specs.Pairs.{AreUnpaired, ArePair};

use crate::kept::is_kept;
use kernel_model::{StepFault, Steps};
use net_core::{Net, Parts};
use net_model::{Call, Link, Name, OutOfMemory, Route, Rule};
use plan_model::plan_laws;
use std::alloc::{AllocError, Global};
use std::marker::Model;

/// A plan in the making: the two networks between which it is to lead, its calls so far, each accepted, and the network to
/// which they have led. Untouched links are undisturbed at each moment, also after an error.
#[derive(Drop)]
pub struct Draft<'a> {
    start: &'a Net,
    target: &'a Net,
    net: Net,
    calls: Vec<Call>,
}

impl<'a> Model for Draft<'a> {
    ghost use Rattle.link_planner.specs.Drafts.{DraftData, IsDraft, draft_of};

    ghost Value = { DraftData };

    ghost view = { λ d. draft_of d.start.now d.target.now d.net d.calls.items };

    ghost invariant = { λ d. IsDraft (draft_of d.start.now d.target.now d.net d.calls.items) };
}

// Makes a call that is accepted.
fn make_call<S: Steps>(net: &mut Net, call: &Call) -> Result<(), OutOfMemory>
    requires { step call.now net.old ≡ Ok (after call.now net.old) }
    ensures made { OnOk result (step call.now net.old ≡ Ok net.new) }
    ensures unchanged { OnErr result (net.new ≡ net.old) }
{
    match S::step(net, call) {
        Ok(()) => Ok(()),
        Err(StepFault::Refused(_)) => unreachable!(),
        Err(StepFault::OutOfMemory) => Err(OutOfMemory),
    }
}

// Takes out the links of these names, which are sorted, and the routes over them.
fn remove_links(net: &mut Net, goes: &[Name])
    requires names { rises name_cmp goes.now ≡ true }
    requires left { IsNet (without (is_among goes.now) net.old) }
    ensures { net.new ≡ without (is_among goes.now) net.old }
{
    if goes.is_empty() {
        return;
    }
    let mut parts = net.take();
    parts.remove_links(goes);
    *net = Net::from_parts(parts);
}

fn copy_links(links: &Vec<Link>) -> Result<Vec<Link>, AllocError>
    ensures { IfOk result (λ copy. copy.items ≡ links.now.items) }
{
    links.clone()
}

fn copy_routes(routes: &Vec<Route>) -> Result<Vec<Route>, AllocError>
    ensures { IfOk result (λ copy. copy.items ≡ routes.now.items) }
{
    routes.clone()
}

fn copy_rules(rules: &Vec<Rule>) -> Result<Vec<Rule>, AllocError>
    ensures { IfOk result (λ copy. copy.items ≡ rules.now.items) }
{
    rules.clone()
}

// Where two sorted lists follow one another, this is one merge.
fn sort_links(links: &mut Vec<Link>) -> Result<(), AllocError>
    ensures sorted { OnOk result (IsSorted link_cmp links.new.items) }
    ensures moved { IsPermutation links.old.items links.new.items }
{
    links.sort_by_key(|link| link.name)
}

// The links, and others, in order.
fn joined(links: &Vec<Link>, more: &mut Vec<Link>) -> Result<Vec<Link>, AllocError>
    requires { names_differ (links.now.items ++ more.old.items) ≡ true }
    ensures { IfOk result (λ all. all.items ≡ sorted link_cmp (links.now.items ++ more.old.items)) }
{
    let mut all = copy_links(links)?;
    all.append(more)?;
    sort_links(&mut all)?;
    Ok(all)
}

// The lists of the network with these links too.
fn parts_with(alloc: Global, net: &Net, more: &mut Vec<Link>) -> Result<Parts, OutOfMemory>
    requires { names_differ (net.now.links ++ more.old.items) ≡ true }
    ensures { IfOk result (λ parts. parts ≡ with_links more.old.items net.now) }
{
    let links = joined(net.links(), more)?;
    let routes = copy_routes(net.routes())?;
    let rules = copy_rules(net.rules())?;
    Parts::of(alloc, links, routes, rules, net.dns().copy()?)
}

// Puts these links into the network. It is made anew from lists of its own, since it has to stand where memory runs out.
fn put_links(alloc: Global, net: &mut Net, more: &mut Vec<Link>) -> Result<(), OutOfMemory>
    requires { IsNet (with_links more.old.items net.old) }
    ensures ok { OnOk result (net.new ≡ with_links more.old.items net.old) }
    ensures err { OnErr result (net.new ≡ net.old) }
{
    net.laws();
    if more.is_empty() {
        return Ok(());
    }
    let parts = parts_with(alloc, net, more)?;
    *net = Net::from_parts(parts);
    Ok(())
}

impl<'a> Draft<'a> {
    /// The draft without a call, between two networks of the same devices.
    pub fn new(alloc: Global, start: &'a Net, target: &'a Net) -> Result<Draft<'a>, OutOfMemory>
        requires { hardware start.now.links ≡ hardware target.now.links }
        ensures { IfOk result (λ draft. draft ≡ draft_of start.now target.now start.now []) }
    {
        let net = start.copy()?;
        plan_laws();
        Ok(Draft {
            start,
            target,
            net,
            calls: Vec::new(alloc),
        })
    }

    /// The network from which it leads.
    pub fn start(&self) -> &'a Net
        ensures { result.now ≡ self.now.start }
    {
        self.start
    }

    /// The network to which it is to lead.
    pub fn target(&self) -> &'a Net
        ensures { result.now ≡ self.now.target }
    {
        self.target
    }

    /// The network to which it has led.
    pub fn net(&self) -> &Net
        ensures { result.now ≡ self.now.net }
    {
        &self.net
    }

    /// What is known of every draft. It supplies laws, and has no effect at run time.
    pub fn laws(&self)
        ensures { Holds self.now }
    {
        self.start.laws();
        self.target.laws();
        self.net.laws();
    }

    /// Whether the link of a name is in both networks, with the same kind.
    pub fn keeps(&self, name: &Name) -> bool
        ensures { result ≡ is_kept self.now.start self.now.target name.now }
    {
        is_kept(self.start, self.target, name)
    }

    // The link of a name so far, and that of the target, where both are there.
    pub(crate) fn pair(&self, name: &Name) -> Option<(&Link, &'a Link)>
        ensures { MatchOption result (AreUnpaired self.now name.now) (λ p. ArePair self.now name.now p.0.now p.1.now) }
    {
        match (self.net.link(name), self.target.link(name)) {
            (Some(link), Some(there)) => Some((link, there)),
            _ => None,
        }
    }

    /// Makes a call that is accepted, and notes it.
    pub fn add<S: Steps>(&mut self, call: Call) -> Result<(), OutOfMemory>
        requires { IsSafe self.old.start self.old.target call self.old.net }
        ensures { OnOk result (self.new ≡ with_call call self.old) }
    {
        plan_laws();
        self.net.laws();
        self.calls.reserve(1)?;
        make_call::<S>(&mut self.net, &call)?;
        self.calls.push(call)?;
        Ok(())
    }

    /// Makes a call that is accepted, where there is one.
    pub fn add_some<S: Steps>(&mut self, call: Option<Call>) -> Result<(), OutOfMemory>
        requires { IfSome call (λ c. IsSafe self.old.start self.old.target c self.old.net) }
        ensures { OnOk result (self.new ≡ with_some call self.old) }
    {
        match call {
            Some(call) => self.add::<S>(call),
            None => Ok(()),
        }
    }

    // Takes out the links of these names, which are sorted, all at once, and adds the calls that delete them.
    pub(crate) fn take_out(
        &mut self,
        goes: &[Name],
        calls: &mut Vec<Call>,
    ) -> Result<(), OutOfMemory>
        requires names { rises name_cmp goes.now ≡ true }
        requires holds { Holds (with_deleted goes.now calls.old.items self.old) }
        ensures made { OnOk result (self.new ≡ with_deleted goes.now calls.old.items self.old) }
        ensures moved { OnOk result (calls.new.items ≡ []) }
    {
        self.calls.append(calls)?;
        remove_links(&mut self.net, goes);
        Ok(())
    }

    // Puts these links in, all at once, and adds the calls that make them.
    pub(crate) fn put_in(
        &mut self,
        alloc: Global,
        links: &mut Vec<Link>,
        calls: &mut Vec<Call>,
    ) -> Result<(), OutOfMemory>
        requires { Holds (with_created links.old.items calls.old.items self.old) }
        ensures { OnOk result (self.new ≡ with_created links.old.items calls.old.items self.old) }
    {
        self.calls.reserve(calls.len())?;
        put_links(alloc, &mut self.net, links)?;
        self.calls.append(calls)?;
        Ok(())
    }

    /// The calls, and the network to which they have led.
    pub fn finish(self) -> (Vec<Call>, Net)
        ensures { draft_of self.entry.start self.entry.target result.1 result.0.items ≡ self.entry }
    {
        let Draft { calls, net, .. } = self;
        (calls, net)
    }
}
