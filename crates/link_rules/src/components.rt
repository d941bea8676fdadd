//! Numbers for the places of a graph that fall or stay along each arrow, and stay where arrows lead round: those of the
//! strongly connected components, by Tarjan's walk. Nothing is proved of them here. Whoever relies on them checks that they
//! rise along no arrow.
use net_model::Items;
use std::alloc::{AllocError, Global};

// A depth-first walk. Places that aren't there have 0, and nothing is noted of them.
#[derive(Drop)]
struct Walk {
    // The place to begin from where the way is empty.
    start: usize,
    // How many places are entered.
    clock: usize,
    // How many components are known.
    components: usize,
    // When each place was entered, counted from 1, or 0.
    entered: Vec<usize>,
    // When the earliest place was entered to which each is known to lead, among those without a component.
    earliest: Vec<usize>,
    // How many arrows of each place are followed.
    next: Vec<usize>,
    // The component of each place, counted from 1, or 0.
    component: Vec<usize>,
    // The places from the start on, each with an arrow to the next.
    way: Vec<usize>,
    // The places that are entered and have no component, as they were entered.
    open: Vec<usize>,
}

fn number_at(numbers: &[usize], place: usize) -> usize {
    match numbers.get(place) {
        Some(number) => *number,
        None => 0,
    }
}

fn put(numbers: &mut Vec<usize>, place: usize, number: usize) {
    if place < numbers.len() {
        numbers[place] = number;
    }
}

fn target_of(arrows: &[Items<usize>], place: usize, arrow: usize) -> Option<usize> {
    match arrows.get(place) {
        Some(row) => row.items().get(arrow).copied(),
        None => None,
    }
}

impl Walk {
    fn over(alloc: Global, places: usize) -> Result<Walk, AllocError> {
        let entered = vec![in alloc; 0; places]?;
        let earliest = vec![in alloc; 0; places]?;
        let next = vec![in alloc; 0; places]?;
        let component = vec![in alloc; 0; places]?;
        Ok(Walk {
            start: 0,
            clock: 0,
            components: 0,
            entered,
            earliest,
            next,
            component,
            way: Vec::new(alloc),
            open: Vec::new(alloc),
        })
    }

    fn enter(&mut self, place: usize) -> Result<(), AllocError> {
        self.clock = self.clock.saturating_add(1);
        let clock = self.clock;
        put(&mut self.entered, place, clock);
        put(&mut self.earliest, place, clock);
        self.way.push(place)?;
        self.open.push(place)?;
        Ok(())
    }

    fn begin(&mut self) -> Result<(), AllocError> {
        let place = self.start;
        if place >= self.entered.len() {
            return Ok(());
        }
        self.start = place + 1;
        if number_at(&self.entered, place) == 0 {
            self.enter(place)?;
        }
        Ok(())
    }

    // Notes that the place leads to one that was entered then.
    fn lead(&mut self, place: usize, then: usize) {
        if then < number_at(&self.earliest, place) {
            put(&mut self.earliest, place, then);
        }
    }

    // Looks at what an arrow of the last place on the way leads to.
    fn look(&mut self, top: usize, target: usize) -> Result<(), AllocError> {
        if number_at(&self.component, target) != 0 {
            return Ok(());
        }
        let then = number_at(&self.entered, target);
        if then == 0 {
            return self.enter(target);
        }
        self.lead(top, then);
        Ok(())
    }

    // The places that were entered from this one on are a component.
    fn close(&mut self, top: usize) {
        self.components = self.components.saturating_add(1);
        for _ in 0..self.open.len() {
            let Some(place) = self.open.pop() else {
                return;
            };
            let components = self.components;
            put(&mut self.component, place, components);
            if place == top {
                return;
            }
        }
    }

    // Goes back from the last place on the way.
    fn leave(&mut self, top: usize) {
        self.way.pop();
        let earliest = number_at(&self.earliest, top);
        if earliest == number_at(&self.entered, top) {
            self.close(top);
        }
        if let Some(before) = self.way.last().copied() {
            self.lead(before, earliest);
        }
    }

    // Follows the next arrow of the last place on the way, or goes back from it.
    fn follow(&mut self, arrows: &[Items<usize>], top: usize) -> Result<(), AllocError> {
        let next = number_at(&self.next, top);
        match target_of(arrows, top, next) {
            Some(target) => {
                put(&mut self.next, top, next.saturating_add(1));
                self.look(top, target)
            }
            None => {
                self.leave(top);
                Ok(())
            }
        }
    }

    fn step(&mut self, arrows: &[Items<usize>]) -> Result<(), AllocError> {
        match self.way.last().copied() {
            Some(top) => self.follow(arrows, top),
            None => self.begin(),
        }
    }

    // A step that begins from a place, one that goes back from it, and one for each of its arrows.
    fn steps(&mut self, arrows: &[Items<usize>], row: &Items<usize>) -> Result<(), AllocError> {
        self.step(arrows)?;
        self.step(arrows)?;
        for _ in 0..row.items().len() {
            self.step(arrows)?;
        }
        Ok(())
    }

    fn into_components(self) -> Vec<usize> {
        let Walk {
            start: _,
            clock: _,
            components: _,
            entered: _,
            earliest: _,
            next: _,
            component,
            way: _,
            open: _,
        } = self;
        component
    }
}

/// For each place the number of its component. It takes time linear in the places and arrows. The error is that memory is
/// out.
pub(crate) fn components(alloc: Global, arrows: &[Items<usize>]) -> Result<Vec<usize>, AllocError> {
    let mut walk = Walk::over(alloc, arrows.len())?;
    for at in 0..arrows.len() {
        walk.steps(arrows, &arrows[at])?;
    }
    Ok(walk.into_components())
}
