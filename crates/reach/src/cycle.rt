//! Whether arrows lead round in a cycle: a depth-first walk, in time linear in the places and arrows.
ghost use Rattle.std.specs.Prelude.{◌≡◌, ◌<◌, false, true, length, slice_get, IfOk, OnOk, ◌-◌};
ghost use Rattle.reach.specs.Cycle.{Decides};
ghost use Rattle.reach.specs.Reach.{IsGraph};
ghost use Rattle.reach.specs.Walk.{AtWork, Begins, Comes, Ends, Enters, IsTop, Meets, Rests, Settles, Steps};

use base_model::{Items, OutOfMemory};
use std::alloc::{AllocError, Global};

// What a depth-first walk knows of each place.
#[derive(Drop)]
struct Walk {
    // The places that it has come to.
    entered: Vec<bool>,
    // Those of them whose arrows all lead to settled places.
    settled: Vec<bool>,
    // For each place, how many of its arrows are known to lead to settled places.
    next: Vec<usize>,
    // The places that are entered and not settled, each after one that has an arrow to it.
    stack: Vec<usize>,
}

impl Walk {
    // A walk over so many places that has come to none.
    fn begin(alloc: Global, places: usize) -> Result<Walk, AllocError>
        ensures { IfOk result (λ walk. Begins places walk) }
    {
        let entered = vec![in alloc; false; places]?;
        let settled = vec![in alloc; false; places]?;
        let next = vec![in alloc; 0; places]?;
        let stack = Vec::new(alloc);
        Ok(Walk {
            entered,
            settled,
            next,
            stack,
        })
    }

    // The place that was entered last, of those that aren't settled.
    fn top(&self) -> Option<usize>
        ensures { result ≡ slice_get self.now.stack.items (length self.now.stack.items - 1) }
    {
        self.stack.last().copied()
    }

    fn enter(&mut self, place: usize) -> Result<(), OutOfMemory>
        requires { place < length self.old.entered.items }
        ensures { OnOk result (Enters place self.old self.new) }
    {
        self.stack.push(place)?;
        self.entered[place] = true;
        Ok(())
    }

    // Settles the place that was entered last.
    fn settle(&mut self, top: usize)
        requires inside { top < length self.old.settled.items }
        requires some { 0 < length self.old.stack.items }
        ensures { Settles top self.old self.new }
    {
        self.settled[top] = true;
        self.stack.pop();
    }

    // Looks at one arrow of the place that was entered last, and says whether it leads to a place that is entered and
    // not settled. An arrow to a place that is new is followed; where no arrow is left, the place is settled.
    fn step(&mut self, arrows: &[Items<usize>], top: usize) -> Result<bool, OutOfMemory>
        requires graph { IsGraph arrows.now }
        requires walks { AtWork arrows.now self.old }
        requires top { IsTop self.old.stack.items top }
        ensures { IfOk result (λ cycle. Meets cycle arrows.now (Steps arrows.now self.old self.new)) }
    {
        let at = self.next[top];
        let targets = arrows[top].items();
        if at >= targets.len() {
            self.settle(top);
            return Ok(false);
        }
        let target = targets[at];
        if self.settled[target] {
            self.next[top] = at + 1;
            return Ok(false);
        }
        if self.entered[target] {
            return Ok(true);
        }
        self.enter(target)?;
        Ok(false)
    }

    // Settles what is on the stack, or says that a cycle was met.
    fn follow(&mut self, arrows: &[Items<usize>]) -> Result<bool, OutOfMemory>
        requires graph { IsGraph arrows.now }
        requires walks { AtWork arrows.now self.old }
        ensures { IfOk result (λ cycle. Meets cycle arrows.now (Ends arrows.now self.old self.new)) }
    {
        while let Some(top) = self.top() {
            let cycle = self.step(arrows, top)?;
            if cycle {
                return Ok(true);
            }
        }
        Ok(false)
    }

    // Enters one place and all that it leads to, and says whether a cycle was met.
    fn start(&mut self, arrows: &[Items<usize>], place: usize) -> Result<bool, OutOfMemory>
        requires graph { IsGraph arrows.now }
        requires rests { Rests arrows.now self.old }
        requires inside { place < length arrows.now }
        ensures { IfOk result (λ cycle. Meets cycle arrows.now (Comes arrows.now place self.old self.new)) }
    {
        if self.entered[place] {
            return Ok(false);
        }
        self.enter(place)?;
        self.follow(arrows)
    }
}

/// Whether the arrows lead round in a cycle. Where they don't, the places have ranks that fall along each arrow. It takes
/// time linear in the places and arrows.
pub fn has_cycle(alloc: Global, arrows: &[Items<usize>]) -> Result<bool, OutOfMemory>
    requires { IsGraph arrows.now }
    ensures { IfOk result (λ cycle. Decides cycle arrows.now) }
{
    let mut walk = Walk::begin(alloc, arrows.len())?;
    for place in 0..arrows.len() {
        let cycle = walk.start(arrows, place)?;
        if cycle {
            return Ok(true);
        }
    }
    Ok(false)
}
