// The ordinary bid: strict; in each quarter any part of its quantity.
ghost use Rattle.market.specs.declared.participant.Mark.TheVariants.{Strict};
ghost use Rattle.kinds.specs.Bids.{RunsPart, ordinary_least, part_gain, runs_part};
ghost use Rattle.kinds.specs.BidLaws.{ordinary_along, ordinary_sound};

use crate::bid::MadeBid;
use crate::bid_figures::FittingFigures;
use crate::figures::BidFigures;
use crate::in_range::PricesInRange;
use crate::limited::Limited;
use crate::rule::VolumeRule;
use limits::least_ordinary_quantity;
use market::participant::Mark;
use market::schedule::Schedule;

/// In each quarter any part of the quantity.
#[derive(Clone, Copy)]
pub struct AnyPart;

/// An ordinary bid, of figures that fit.
pub type OrdinaryBid = MadeBid<AnyPart>;

impl VolumeRule for AnyPart {
    ghost MARK = { Strict };

    const MARK: Mark = Mark::Strict;

    ghost least = { ordinary_least };

    ghost is_lawful = { runs_part };

    ghost Runs = { RunsPart };

    ghost gained = { part_gain };

    ghost sound = { ordinary_sound };

    ghost along = { ordinary_along };

    fn least(figures: &BidFigures) -> i64 {
        least_ordinary_quantity(i64::from(figures.zone))
    }

    fn is_lawful(figures: &FittingFigures, schedule: &Schedule) -> bool {
        figures.allows(schedule)
    }

    fn gain(figures: &FittingFigures, prices: &PricesInRange) -> i64 {
        figures.greatest_gain(prices)
    }
}
