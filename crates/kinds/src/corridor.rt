// The corridor: strict; a flow between its limits that leaves one zone and enters another, at no
// cost.
ghost use Rattle.std.specs.Prelude.{◌≡◌, true};
ghost use Rattle.limits.specs.Limits.{corridor_limit};
ghost use Rattle.market.specs.Tests.{Tells, Within};
ghost use Rattle.market.specs.declared.participant.Mark.TheVariants.{Strict};
ghost use Rattle.kinds.specs.Made.{MadeFrom};
ghost use Rattle.kinds.specs.Corridors.{Enters, FlowsWithin, Leaves, OnlyBetween, corridor, corridor_fits, flow_into, least_flow, limits_fit, most_flow, price_gap};
ghost use Rattle.kinds.specs.CorridorLaws.{corridor_sound};
ghost use Rattle.std.proofs.Common.{rules};

use crate::figures::{CorridorFigures, in_quarter};
use crate::in_range::PricesInRange;
use crate::limited::Limited;
use crate::made::Makeable;
use limits::{CORRIDOR_LIMIT, QUARTERS, ZONES};
use market::cells::{Cell, Prices};
use market::participant::{Mark, Participant};
use market::schedule::Schedule;

/// A corridor, of figures that fit.
#[derive(Clone, Copy, PartialEq, Eq, Debug)]
pub struct Corridor {
    figures: CorridorFigures,
    ghost fits: { corridor_fits figures ≡ true },
}

// Whether the limit of each quarter is in range.
fn limits_fit(limits: &[u16; QUARTERS]) -> bool
    ensures { result ≡ limits_fit limits.now }
{
    limits
        .iter()
        .all(|&limit| i64::from(limit) <= CORRIDOR_LIMIT)
}

impl CorridorFigures {
    // Whether a corridor can be made of the figures.
    fn fits(&self) -> bool
        ensures { result ≡ corridor_fits self.now }
    {
        usize::from(self.from_zone) < ZONES
            && usize::from(self.to_zone) < ZONES
            && self.from_zone != self.to_zone
            && limits_fit(&self.forward)
            && limits_fit(&self.backward)
    }
}

impl Corridor {
    // What a flow adds to a zone.
    fn flow_into(&self, flow: i32, zone: usize) -> i32
        requires { Within corridor_limit flow }
        ensures { result ≡ flow_into self.now.figures flow zone }
    {
        if zone == usize::from(self.figures.to_zone) {
            flow
        } else if zone == usize::from(self.figures.from_zone) {
            -flow
        } else {
            0
        }
    }

    /// The zone that the flow leaves.
    pub fn from_zone(&self) -> usize
        ensures value { result ≡ self.now.figures.from_zone }
        ensures leaves { Leaves (corridor self.now.figures) result }
    {
        usize::from(self.figures.from_zone)
    }

    /// The zone that the flow enters.
    pub fn to_zone(&self) -> usize
        ensures value { result ≡ self.now.figures.to_zone }
        ensures enters { Enters (corridor self.now.figures) result }
        ensures elsewhere { OnlyBetween (corridor self.now.figures) self.now.figures.from_zone result }
    {
        usize::from(self.figures.to_zone)
    }
}

impl Limited for Corridor {
    ghost least = { λ made. least_flow made.figures };

    ghost most = { λ made. most_flow made.figures };

    ghost margin = { λ made. price_gap made.figures };

    fn least(&self, quarter: usize) -> i32 {
        -in_quarter(&self.figures.backward, quarter)
    }

    fn most(&self, quarter: usize) -> i32 {
        in_quarter(&self.figures.forward, quarter)
    }

    fn margin(&self, prices: &PricesInRange, quarter: usize) -> i32 {
        let from = Cell {
            zone: usize::from(self.figures.from_zone),
            quarter,
        };
        let to = Cell {
            zone: usize::from(self.figures.to_zone),
            quarter,
        };
        prices.at(to) - prices.at(from)
    }
}

impl Participant for Corridor {
    ghost MARK = { Strict };

    const MARK: Mark = Mark::Strict;

    ghost kind = { λ made. corridor made.figures };

    ghost marked = { Prim.search rules };

    ghost sound = { λ x. corridor_sound x.figures x.fits };

    fn lawful(&self, schedule: &Schedule) -> bool
        ensures kind { result ≡ (corridor self.now.figures).lawful schedule.now.megawatts }
        ensures tells { Tells result (FlowsWithin self.now.figures schedule.now.megawatts) }
    {
        self.allows(schedule)
    }

    fn cost(&self, _schedule: &Schedule) -> i64 {
        0
    }

    fn effect(&self, schedule: &Schedule, cell: Cell) -> i32 {
        if self.allows(schedule) && cell.exists() {
            self.flow_into(schedule.megawatts[cell.quarter], cell.zone)
        } else {
            0
        }
    }

    fn best_surplus(&self, prices: &Prices) -> i64 {
        PricesInRange::new(prices).map_or(0, |prices| self.greatest_gain(&prices))
    }
}

impl Makeable for Corridor {
    type Figures = CorridorFigures;

    ghost fits = { corridor_fits };

    ghost meaning = { corridor };

    ghost figures_of = { λ made. made.figures };

    ghost means = { Prim.search rules };

    ghost bears = { Prim.search rules };

    ghost sound_where_fit = { corridor_sound };

    fn make(figures: &CorridorFigures) -> Option<Corridor>
        ensures { MadeFrom corridor_fits (λ made. made.figures) figures.now result }
    {
        // With `then` the closure would have to state the invariant in a clause of its own.
        if figures.fits() {
            Some(Corridor { figures: *figures })
        } else {
            None
        }
    }
}
