//! A clock of one's choosing.
ghost use Rattle.std.specs.Prelude.{◌≡◌};

use host_core::Clock;

/// A clock that gives these moments one after another, and the last one for good. It isn't told beforehand.
#[derive(Drop)]
pub struct Moments {
    moments: Vec<u64>,
    given: usize,
}

impl Moments {
    pub fn new(moments: Vec<u64>) -> Moments {
        Moments { moments, given: 0 }
    }

    fn at(&self, place: usize) -> Option<u64> {
        match self.moments.get(place) {
            Some(moment) => Some(*moment),
            None => None,
        }
    }

    fn last(&self) -> u64 {
        match self.moments.last() {
            Some(moment) => *moment,
            None => 0,
        }
    }
}

impl Clock for Moments {
    ghost use Rattle.std.specs.Prelude.{[]};

    ghost tells = { ⊥ };

    ghost coming = { λ c. [] };

    fn now(&mut self) -> u64 {
        match self.at(self.given) {
            Some(moment) => {
                self.given = self.given.saturating_add(1);
                moment
            }
            None => self.last(),
        }
    }
}
