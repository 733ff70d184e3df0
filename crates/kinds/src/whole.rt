// The whole bid: lenient; its full quantity in every quarter, or nothing.
ghost use Rattle.std.specs.Prelude.{◌≡◌, ◌*ℤ◌};
ghost use Rattle.kinds.specs.Between.{gain_limit};
ghost use Rattle.limits.specs.Limits.{effect_limit};
ghost use Rattle.market.specs.Cells.{table};
ghost use Rattle.market.specs.Tests.{Within};
ghost use Rattle.market.specs.declared.participant.Mark.TheVariants.{Lenient};
ghost use Rattle.kinds.specs.Bids.{EmptyOrFull, empty_or_full, full, full_gain, is_full, margin, whole_gain, whole_least};
ghost use Rattle.kinds.specs.BidLaws.{whole_along, whole_sound};

use crate::bid::MadeBid;
use crate::bid_figures::FittingFigures;
use crate::figures::BidFigures;
use crate::in_range::PricesInRange;
use crate::limited::Limited;
use crate::rule::VolumeRule;
use limits::{LEAST_QUANTITY, QUARTERS};
use market::participant::Mark;
use market::schedule::Schedule;
use market::summing::sum_below;
use market::surplus::money;
use names::lists::Direction;

/// The full quantity in every quarter, or nothing.
#[derive(Clone, Copy)]
pub struct AllOrNothing;

/// A whole bid, of figures that fit.
pub type WholeBid = MadeBid<AllOrNothing>;

impl FittingFigures {
    // The full quantity of a quarter, with the direction's sign.
    fn full(&self, quarter: usize) -> i32
        ensures value { result ≡ full self.now.plain quarter }
        ensures within { Within effect_limit result }
    {
        match self.plain.direction {
            Direction::Up => self.quantity(quarter),
            Direction::Down => -self.quantity(quarter),
        }
    }

    // Whether a schedule runs the full quantity in every quarter.
    fn is_full(&self, schedule: &Schedule) -> bool
        ensures { result ≡ is_full self.now.plain schedule.now.megawatts }
    {
        schedule.every_quarter(|quarter, megawatts| megawatts == self.full(quarter))
    }

    // Whether a schedule is the empty one or runs the full quantity in every quarter.
    fn is_empty_or_full(&self, schedule: &Schedule) -> bool
        ensures { result ≡ empty_or_full self.now.plain schedule.now.megawatts }
    {
        schedule.is_empty() || self.is_full(schedule)
    }

    // What the full quantity gains in a quarter.
    fn full_gain_in(&self, prices: &PricesInRange, quarter: usize) -> i64
        ensures value { result ≡ margin self.now.plain (table prices.now.prices.now.cents) quarter *ℤ full self.now.plain quarter }
        ensures within { Within gain_limit result }
    {
        money(self.margin(prices, quarter), self.full(quarter))
    }

    // What the full quantity gains.
    fn full_gain(&self, prices: &PricesInRange) -> i64
        ensures { result ≡ full_gain self.now.plain (table prices.now.prices.now.cents) }
    {
        sum_below(QUARTERS, |quarter| self.full_gain_in(prices, quarter))
    }
}

impl VolumeRule for AllOrNothing {
    ghost MARK = { Lenient };

    const MARK: Mark = Mark::Lenient;

    ghost least = { whole_least };

    ghost is_lawful = { empty_or_full };

    ghost Runs = { EmptyOrFull };

    ghost gained = { whole_gain };

    ghost sound = { whole_sound };

    ghost along = { whole_along };

    fn least(_figures: &BidFigures) -> i64 {
        LEAST_QUANTITY
    }

    fn is_lawful(figures: &FittingFigures, schedule: &Schedule) -> bool {
        figures.is_empty_or_full(schedule)
    }

    fn gain(figures: &FittingFigures, prices: &PricesInRange) -> i64 {
        figures.full_gain(prices).max(0)
    }
}
