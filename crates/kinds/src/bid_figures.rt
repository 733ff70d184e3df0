// What ordinary and whole bids have alike: figures in range, and what follows from these alone.
ghost use Rattle.std.specs.Prelude.{◌≡◌, ℕ, ◌<◌, ◌≤◌, true, ◌&&◌, pos, ◌≤ℤ◌, int_le, slice_index};
ghost use Rattle.market.specs.Cells.{table};
ghost use Rattle.market.specs.Tests.{Within};
ghost use Rattle.limits.specs.Limits.{effect_limit, is_quantity, price_limit, quantity_limit, quarters};
ghost use Rattle.kinds.specs.Between.{margin_limit};
ghost use Rattle.kinds.specs.Bids.{effect_of, least_volume, margin, most_volume, zone_and_price_fit, price_of, quantities_fit, quantity};
ghost use Rattle.kinds.specs.Made.{MadeFrom};

use crate::figures::{BidFigures, in_quarter};
use crate::in_range::PricesInRange;
use crate::limited::Limited;
use limits::{CENTS_IN_HALF_EURO, HALF_EUROS_LIMIT, QUANTITY_LIMIT, ZONES, is_quantity};
use market::cells::{Cell, Prices};
use market::schedule::Schedule;
use names::lists::Direction;

/// Figures of a bid whose zone, price and quantities are in range, whatever the least quantity is.
#[derive(Clone, Copy, PartialEq, Eq, Debug)]
pub struct FittingFigures {
    pub(crate) plain: BidFigures,
    ghost zone_and_price: { zone_and_price_fit plain ≡ true },
    ghost bounded: { (q : ℕ) → q < quarters → quantity plain q ≤ℤ pos quantity_limit },
}

// Whether a quantity is 0 or from the least one to the limit.
fn quantity_fits(least: i64, quantity: i64) -> bool
    ensures { result ≡ (int_le quantity (pos quantity_limit) && is_quantity least quantity) }
{
    quantity <= QUANTITY_LIMIT && is_quantity(least, quantity)
}

impl BidFigures {
    // These figures, where they fit at a least quantity.
    pub(crate) fn fitting(&self, least: i64) -> Option<FittingFigures>
        ensures { MadeFrom (λ f. zone_and_price_fit f && quantities_fit least f) (λ it. it.plain) self.now result }
    {
        // With `then` the closure would have to state the invariant in a clause of its own.
        if self.zone_and_price_fit() && self.quantities_fit(least) {
            Some(FittingFigures { plain: *self })
        } else {
            None
        }
    }

    // Whether zone and price are in range.
    fn zone_and_price_fit(&self) -> bool
        ensures { result ≡ zone_and_price_fit self.now }
    {
        usize::from(self.zone) < ZONES
            && (-HALF_EUROS_LIMIT..=HALF_EUROS_LIMIT).contains(&i64::from(self.half_euros))
    }

    // Whether each quantity is 0 or from the least one to the limit.
    fn quantities_fit(&self, least: i64) -> bool
        ensures { result ≡ quantities_fit least self.now }
    {
        self.quantities
            .iter()
            .all(|&quantity| quantity_fits(least, i64::from(quantity)))
    }
}

impl FittingFigures {
    // The quantity of a quarter, in MW; 0 where there is no such quarter.
    pub(crate) fn quantity(&self, quarter: usize) -> i32
        ensures value { result ≡ quantity self.now.plain quarter }
        ensures within { Within effect_limit result }
    {
        in_quarter(&self.plain.quantities, quarter)
    }

    // The price in cents per MWh.
    pub(crate) fn cents(&self) -> i32
        ensures value { result ≡ price_of self.now.plain }
        ensures within { Within price_limit result }
    {
        CENTS_IN_HALF_EURO * self.plain.half_euros
    }

    // The schedule in the bid's own zone, and 0 elsewhere.
    pub(crate) fn effect_of(&self, schedule: &Schedule, cell: Cell) -> i32
        ensures { result ≡ effect_of self.now.plain schedule.now.megawatts cell.zone cell.quarter }
    {
        if cell.exists() && cell.zone == usize::from(self.plain.zone) {
            schedule.megawatts[cell.quarter]
        } else {
            0
        }
    }
}

// Any part of the quantity, in each quarter.
impl Limited for FittingFigures {
    ghost least = { λ it. least_volume it.plain };

    ghost most = { λ it. most_volume it.plain };

    ghost margin = { λ it. margin it.plain };

    fn least(&self, quarter: usize) -> i32 {
        match self.plain.direction {
            Direction::Up => 0,
            Direction::Down => -self.quantity(quarter),
        }
    }

    fn most(&self, quarter: usize) -> i32 {
        match self.plain.direction {
            Direction::Up => self.quantity(quarter),
            Direction::Down => 0,
        }
    }

    fn margin(&self, prices: &PricesInRange, quarter: usize) -> i32 {
        let zone = usize::from(self.plain.zone);
        prices.at(Cell { zone, quarter }) - self.cents()
    }
}
