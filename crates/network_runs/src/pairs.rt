//! Pairs of networks and the plans between them.

use crate::drawn::call;
use crate::draws::{Draws, name_at};
use crate::networks::{of_links, try_call};
use crate::seen::{count, kind_of_call, shapes};
use case_table::Text;
use kernel_step::Kernel;
use link_planner::plan_links;
use net_core::Net;
use net_equal::same_net;
use net_model::{BondOpts, BridgeOpts, Call, DEFAULT_MTU, Items, Kind, Link, Mac, PortOpts};
use plan_core::plan;
use std::alloc::Global;

/// How many calls are drawn for a network.
const CALLS: u32 = 160;

fn device(alloc: Global, at: u8) -> Option<Link> {
    let mac = Mac {
        bytes: [0x52, 0x54, 0, 0, 0, at],
    };
    Some(Link {
        name: name_at(at as u32)?,
        kind: Kind::Ethernet { permanent: mac },
        up: false,
        mtu: DEFAULT_MTU,
        mac,
        controller: None,
        bond: BondOpts::defaults(),
        bridge: BridgeOpts::defaults(),
        port: PortOpts::defaults(),
        addrs: Items::of(Vec::new(alloc)),
    })
}

// The network of four devices.
fn devices(alloc: Global) -> Option<Net> {
    let mut links = Vec::new(alloc);
    for at in 0..4_u8 {
        links.push(device(alloc, at)?).ok()?;
    }
    of_links(alloc, links)
}

fn calls_between(alloc: Global, from: &Net, to: &Net) -> Option<Vec<Call>> {
    if !from.same_hardware(to) {
        return None;
    }
    plan(alloc, from, to).ok()
}

// Whether the plan for the links of a network to its own links has no call, and leads to the network.
fn links_stay(alloc: Global, net: &Net) -> Option<bool> {
    let plan = plan_links::<Kernel>(alloc, net, net).ok()?;
    Some(plan.calls.is_empty() && same_net(&plan.after, net))
}

// What was seen of the pairs so far.
#[derive(Drop)]
struct Pairs {
    draws: Draws,
    devices: Net,
    pairs: u64,
    calls: u64,
    kinds: u32,
    shapes: u32,
    refused: u64,
    differ: u64,
    not_empty: u64,
}

impl Pairs {
    fn new(alloc: Global, draws: Draws) -> Option<Pairs> {
        Some(Pairs {
            draws,
            devices: devices(alloc)?,
            pairs: 0,
            calls: 0,
            kinds: 0,
            shapes: 0,
            refused: 0,
            differ: 0,
            not_empty: 0,
        })
    }

    // A network that calls make of the devices.
    fn network(&mut self, alloc: Global) -> Option<Net> {
        let mut net = self.devices.copy().ok()?;
        for _ in 0..CALLS {
            let call = call(alloc, &mut self.draws)?;
            try_call(&mut net, &call)?;
        }
        Some(net)
    }

    fn carry_out(&mut self, net: &mut Net, calls: &[Call]) -> Option<()> {
        for call in calls {
            self.kinds |= kind_of_call(call);
            if try_call(net, call)?.is_some() {
                self.refused = self.refused.wrapping_add(1);
            }
        }
        Some(())
    }

    // Carries out the plan from one to the other, and compares.
    fn lead(&mut self, alloc: Global, from: &Net, to: &Net) -> Option<()> {
        let calls = calls_between(alloc, from, to)?;
        let mut work = from.copy().ok()?;
        self.carry_out(&mut work, &calls)?;
        if !same_net(&work, to) {
            self.differ = self.differ.wrapping_add(1);
        }
        self.calls = self.calls.wrapping_add(calls.len() as u64);
        Some(())
    }

    // The plan of a network to itself has no call, nor has that for its links.
    fn stay(&mut self, alloc: Global, net: &Net) -> Option<()> {
        let calls = calls_between(alloc, net, net)?;
        let is_still = links_stay(alloc, net)?;
        if !calls.is_empty() || !is_still {
            self.not_empty = self.not_empty.wrapping_add(1);
        }
        Some(())
    }

    // Draws a pair, and leads from the one to the other and back.
    fn next(&mut self, alloc: Global) -> Option<()> {
        let one = self.network(alloc)?;
        let other = self.network(alloc)?;
        self.shapes |= shapes(&one);
        self.lead(alloc, &one, &other)?;
        self.lead(alloc, &other, &one)?;
        self.stay(alloc, &one)?;
        self.pairs = self.pairs.wrapping_add(1);
        Some(())
    }

    fn push(&self, out: &mut Text) {
        out.push_count(self.pairs, " pairs, ");
        out.push_count(self.calls, " calls of ");
        out.push_count(count(self.kinds), " kinds, ");
        out.push_count(count(self.shapes), " shapes of links, ");
        out.push_count(self.refused, " refused, ");
        out.push_count(self.differ, " differ, ");
        out.push_count(self.not_empty, " not empty");
    }
}

/// Pushes what is seen of so many pairs of a seed.
pub fn push_led(alloc: Global, seed: u64, count: u32, out: &mut Text) -> Option<()> {
    let mut pairs = Pairs::new(alloc, Draws::new(seed))?;
    for _ in 0..count {
        pairs.next(alloc)?;
    }
    pairs.push(out);
    Some(())
}
