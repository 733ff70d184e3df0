// A bid of any rule: its price, its zone, and what a schedule costs and does, are the same.
ghost use Rattle.std.specs.Prelude.{◌≡◌, true};
ghost use Rattle.std.proofs.Common.{rules};
ghost use Rattle.market.specs.Kinds.{is_strict};
ghost use Rattle.market.specs.Tests.{Tells};
ghost use Rattle.kinds.specs.Bids.{bid_fits, bid_kind, price_of};
ghost use Rattle.kinds.specs.Made.{MadeFrom};

use crate::bid_figures::FittingFigures;
use crate::figures::BidFigures;
use crate::in_range::PricesInRange;
use crate::made::Makeable;
use crate::rule::VolumeRule;
use market::bid::Bid;
use market::cells::{Cell, Prices};
use market::participant::{Mark, Participant};
use market::schedule::Schedule;
use names::lists::Direction;
use std::marker::PhantomData;

/// A bid that runs by a rule, of figures that fit.
#[derive(Drop)]
#[derive_where(PartialEq, Eq, Debug)]
pub struct MadeBid<R: VolumeRule> {
    figures: FittingFigures,
    rule: PhantomData<R>,
    ghost fits: { bid_fits R.least figures.plain ≡ true },
}

impl<R: VolumeRule> Makeable for MadeBid<R> {
    type Figures = BidFigures;

    ghost fits = { bid_fits R.least };

    ghost meaning = { bid_kind (is_strict R.MARK) R.is_lawful R.gained };

    ghost figures_of = { λ bid. bid.figures.plain };

    ghost means = { Prim.search rules };

    ghost bears = { Prim.search rules };

    ghost sound_where_fit = { R.sound };

    fn make(figures: &BidFigures) -> Option<MadeBid<R>>
        ensures { MadeFrom (bid_fits R.least) (λ bid. bid.figures.plain) figures.now result }
    {
        Some(MadeBid {
            figures: figures.fitting(R::least(figures))?,
            rule: PhantomData,
        })
    }
}

impl<R: VolumeRule> Participant for MadeBid<R> {
    ghost MARK = { R.MARK };

    const MARK: Mark = R::MARK;

    ghost kind = { λ bid. bid_kind (is_strict R.MARK) R.is_lawful R.gained bid.figures.plain };

    ghost marked = { Prim.search rules };

    ghost sound = { λ bid. R.sound bid.figures.plain bid.fits };

    fn lawful(&self, schedule: &Schedule) -> bool
        ensures kind { result ≡ R.is_lawful self.now.figures.plain schedule.now.megawatts }
        ensures tells { Tells result (R.Runs self.now.figures.plain schedule.now.megawatts) }
    {
        R::is_lawful(&self.figures, schedule)
    }

    fn cost(&self, schedule: &Schedule) -> i64 {
        if self.lawful(schedule) {
            i64::from(self.figures.cents()) * schedule.total()
        } else {
            0
        }
    }

    fn effect(&self, schedule: &Schedule, cell: Cell) -> i32 {
        // Where it is 0 in any case, as in another zone, nothing more is asked of the schedule.
        let effect = self.figures.effect_of(schedule, cell);
        if effect != 0 && self.lawful(schedule) {
            effect
        } else {
            0
        }
    }

    fn best_surplus(&self, prices: &Prices) -> i64 {
        PricesInRange::new(prices).map_or(0, |prices| R::gain(&self.figures, &prices))
    }
}

impl<R: VolumeRule> Bid for MadeBid<R> {
    ghost zone = { λ bid. bid.figures.plain.zone };

    ghost direction = { λ bid. bid.figures.plain.direction };

    ghost price = { λ bid. price_of bid.figures.plain };

    ghost group = { λ bid. bid.figures.plain.station_group };

    fn zone(&self) -> usize {
        usize::from(self.figures.plain.zone)
    }

    fn direction(&self) -> Direction {
        self.figures.plain.direction
    }

    fn price(&self) -> i32 {
        self.figures.cents()
    }

    fn station_group(&self) -> u16 {
        self.figures.plain.station_group
    }
}
