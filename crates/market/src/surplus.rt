// What a schedule is worth to a participant at given prices.
ghost use Rattle.std.specs.Prelude.{◌≡◌, ◌*ℤ◌};
ghost use Rattle.market.specs.Sums.{sum_below};
ghost use Rattle.market.specs.Tests.{Within};
ghost use Rattle.market.specs.Cells.{table};
ghost use Rattle.limits.specs.Limits.{quarters};
ghost use Rattle.market.specs.Kinds.{quarter_worth_limit, surplus as surplus_of, surplus_limit, worth as worth_of, worth_limit, zone_worth_limit};

use crate::cells::{Cell, Prices};
use crate::participant::Participant;
use crate::schedule::Schedule;
use crate::summing::sum_below;
use limits::{QUARTERS, ZONES};

/// Money units: a price in cents per MWh times MW for a quarter. A unit is a quarter of a cent.
pub fn money(cents: i32, megawatts: i32) -> i64
    ensures { result ≡ cents *ℤ megawatts }
{
    i64::from(cents) * i64::from(megawatts)
}

/// A participant and a schedule that it is given.
#[derive_where(Clone, Copy)]
pub struct Seat<'a, K> {
    pub participant: &'a K,
    pub schedule: &'a Schedule,
}

impl<'a, K: Participant> Seat<'a, K> {
    /// What the effect of the schedule is worth: price times effect over all cells. The prices may
    /// be any numbers of 32 bits.
    pub fn worth(&self, prices: &Prices) -> i64
        ensures value { result ≡ worth_of (K.Participant.kind self.now.participant.now) (table prices.now.cents) self.now.schedule.now.megawatts }
        ensures within { Within worth_limit result }
    {
        sum_below(ZONES, |zone| self.worth_in_zone(prices, zone))
    }

    // What the effect of the schedule in one zone is worth.
    fn worth_in_zone(&self, prices: &Prices, zone: usize) -> i64
        ensures value { result ≡ sum_below quarters (λ q. table prices.now.cents zone q *ℤ (K.Participant.kind self.now.participant.now).effect self.now.schedule.now.megawatts zone q) }
        ensures within { Within zone_worth_limit result }
    {
        sum_below(
            QUARTERS,
            |quarter| self.worth_in(prices, Cell { zone, quarter }),
        )
    }

    // What the effect of the schedule in one cell is worth.
    fn worth_in(&self, prices: &Prices, cell: Cell) -> i64
        ensures value { result ≡ table prices.now.cents cell.zone cell.quarter *ℤ (K.Participant.kind self.now.participant.now).effect self.now.schedule.now.megawatts cell.zone cell.quarter }
        ensures within { Within quarter_worth_limit result }
    {
        money(
            prices.at(cell),
            self.participant.effect(self.schedule, cell),
        )
    }

    /// The surplus of the schedule: what its effect is worth, less its cost.
    pub fn surplus(&self, prices: &Prices) -> i64
        ensures value { result ≡ surplus_of (K.Participant.kind self.now.participant.now) (table prices.now.cents) self.now.schedule.now.megawatts }
        ensures within { Within surplus_limit result }
    {
        self.worth(prices) - self.participant.cost(self.schedule)
    }
}
