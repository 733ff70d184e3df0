// The rule of a kind of bid: how much of its quantity it may run.
ghost use Rattle.std.specs.Prelude.{◌≡◌, Bool, ℤ, List, true};
ghost use Rattle.market.specs.Bids.{RunsAlong};
ghost use Rattle.market.specs.Cells.{Table, table};
ghost use Rattle.market.specs.Kinds.{Sound, is_strict};
ghost use Rattle.market.specs.Tests.{Tells};
ghost use Rattle.market.specs.declared.participant.Mark.{Mark};
ghost use Rattle.kinds.specs.Bids.{bid_fits, bid_kind};
ghost use Rattle.kinds.specs.declared.figures.BidFigures.{BidFigures};

use crate::bid_figures::FittingFigures;
use crate::figures::BidFigures;
use crate::in_range::PricesInRange;
use market::participant::Mark;
use market::schedule::Schedule;

/// What tells one kind of bid from another: its mark, its least quantity, its lawful schedules, and
/// what the best of these gains.
pub trait VolumeRule {
    ghost MARK: { Mark };

    /// The mark of these bids.
    const MARK: Mark;

    ghost least: { BidFigures → ℤ };

    ghost is_lawful: { BidFigures → List ℤ → Bool };

    // The same in words.
    ghost Runs: { BidFigures → List ℤ → Type 0 };

    ghost gained: { BidFigures → Table → ℤ };

    /// The least quantity other than 0, in MW.
    fn least(figures: &BidFigures) -> i64
        ensures { result ≡ least figures.now };

    /// Whether a schedule is lawful.
    fn is_lawful(figures: &FittingFigures, schedule: &Schedule) -> bool
        ensures answer { result ≡ is_lawful figures.now.plain schedule.now.megawatts }
        ensures tells { Tells result (Runs figures.now.plain schedule.now.megawatts) };

    /// The greatest surplus of a lawful schedule, in money units.
    fn gain(figures: &FittingFigures, prices: &PricesInRange) -> i64
        ensures { result ≡ gained figures.now.plain (table prices.now.prices.now.cents) };

    ghost sound: { (f : BidFigures) → bid_fits least f ≡ true → Sound (bid_kind (is_strict MARK) is_lawful gained f) };

    ghost along: { (f : BidFigures) → RunsAlong (bid_kind (is_strict MARK) is_lawful gained f) f.direction };
}
