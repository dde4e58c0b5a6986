//! What a survey of disks found.
ghost use Rattle.std.specs.Prelude.{◌≡◌};

use crate::areas::Plan;
use crate::found::Found;
use std::marker::Model;
use uberblock_ring::Uberblock;

/// What the disks in use show, and what a claim of it writes.
#[derive(Drop)]
pub struct Survey {
    pub(crate) found: Vec<Option<Found>>,
    pub(crate) highest: Uberblock,
    pub(crate) taken: Uberblock,
    pub(crate) plan: Plan,
}

impl Model for Survey {
    ghost use Rattle.pool_slots.specs.Surveys.{Surveyed};

    ghost Value = { Surveyed };

    ghost view = { λ s. record {
      found = s.found.items;
      highest = s.highest;
      taken = s.taken;
      claimed = s.plan.claimed;
      areas = s.plan.areas.items;
    } };
}

impl Survey {
    /// The highest uberblock that the disks show.
    pub fn highest(&self) -> Uberblock
        ensures { result ≡ self.now.highest }
    {
        self.highest
    }

    /// The uberblock that is taken: the highest, or the one that was gone back to.
    pub fn taken(&self) -> Uberblock
        ensures { result ≡ self.now.taken }
    {
        self.taken
    }

    /// The taken uberblock under the next claim.
    pub fn claimed(&self) -> Uberblock
        ensures { result ≡ self.now.claimed }
    {
        self.plan.claimed
    }
}
