// Participants whose lawful schedules lie between two limits in each quarter.
ghost use Rattle.std.specs.Prelude.{◌≡◌, ℕ, ◌&&◌, ℤ, int_le};
ghost use Rattle.market.specs.Cells.{Table, table};
ghost use Rattle.market.specs.Tests.{Within};
ghost use Rattle.limits.specs.Limits.{effect_limit};
ghost use Rattle.kinds.specs.Between.{between, gain, gain_limit, greatest_gain, margin_limit};

use crate::in_range::PricesInRange;
use limits::QUARTERS;
use market::schedule::Schedule;
use market::summing::sum_below;
use market::surplus::money;

// The limits of a schedule in a quarter, and what one MW gains there. All numbers of quarters are
// admitted.
pub(crate) trait Limited {
    ghost least: { Self → ℕ → ℤ };

    ghost most: { Self → ℕ → ℤ };

    ghost margin: { Self → Table → ℕ → ℤ };

    fn least(&self, quarter: usize) -> i32
        ensures value { result ≡ least self.now quarter }
        ensures within { Within effect_limit result };

    fn most(&self, quarter: usize) -> i32
        ensures value { result ≡ most self.now quarter }
        ensures within { Within effect_limit result };

    fn margin(&self, prices: &PricesInRange, quarter: usize) -> i32
        ensures value { result ≡ margin self.now (table prices.now.prices.now.cents) quarter }
        ensures within { Within margin_limit result };

    // Whether a volume lies between the limits of a quarter.
    fn allows_in(&self, quarter: usize, megawatts: i32) -> bool
        ensures { result ≡ (int_le (least self.now quarter) megawatts && int_le megawatts (most self.now quarter)) }
    {
        (self.least(quarter)..=self.most(quarter)).contains(&megawatts)
    }

    // Whether a schedule lies between the limits in each quarter.
    fn allows(&self, schedule: &Schedule) -> bool
        ensures { result ≡ between (least self.now) (most self.now) schedule.now.megawatts }
    {
        schedule.every_quarter(|quarter, megawatts| self.allows_in(quarter, megawatts))
    }

    // What the better limit gains in a quarter.
    fn gain_in(&self, prices: &PricesInRange, quarter: usize) -> i64
        ensures value { result ≡ gain (margin self.now (table prices.now.prices.now.cents)) (least self.now) (most self.now) quarter }
        ensures within { Within gain_limit result }
    {
        let margin = self.margin(prices, quarter);
        money(margin, self.least(quarter)).max(money(margin, self.most(quarter)))
    }

    // What the better limit in each quarter gains: the greatest surplus between the limits.
    fn greatest_gain(&self, prices: &PricesInRange) -> i64
        ensures { result ≡ greatest_gain (margin self.now (table prices.now.prices.now.cents)) (least self.now) (most self.now) }
    {
        sum_below(QUARTERS, |quarter| self.gain_in(prices, quarter))
    }
}
