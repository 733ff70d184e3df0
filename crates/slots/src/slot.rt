// A slot of any kind that is made from figures, and the slots of the three kinds.
ghost use Rattle.std.specs.Prelude.{◌≡◌, Some};
ghost use Rattle.std.proofs.Common.{rules};
ghost use Rattle.market.specs.Kinds.{is_strict};
ghost use Rattle.slots.specs.SlotLaws.{slot_sound};
ghost use Rattle.slots.specs.Slots.{Made, slot};

use kinds::corridor::Corridor;
use kinds::figures::{BidFigures, CorridorFigures};
use kinds::made::Makeable;
use kinds::ordinary::OrdinaryBid;
use kinds::whole::WholeBid;
use market::cells::{Cell, Prices};
use market::participant::{Mark, Participant};
use market::schedule::Schedule;
use std::marker::PhantomData;

/// A slot of what is made from figures; none of these where the number is absent.
#[derive_where(Clone, Copy, PartialEq, Eq, Debug; F)]
pub struct Slot<F, K> {
    pub figures: Option<F>,
    /// Names the kind; it takes no memory.
    pub makes: PhantomData<K>,
}

/// The slot of an ordinary bid.
pub type OrdinarySlot = Slot<BidFigures, OrdinaryBid>;

/// The slot of a whole bid.
pub type WholeSlot = Slot<BidFigures, WholeBid>;

/// The slot of a corridor.
pub type CorridorSlot = Slot<CorridorFigures, Corridor>;

impl<F, K> Slot<F, K> {
    /// The slot of an absent number.
    pub const ABSENT: Slot<F, K> = Slot {
        figures: None,
        makes: PhantomData,
    };

    /// The slot of these figures.
    pub fn new(figures: F) -> Slot<F, K>
        ensures { result.figures ≡ Some figures }
    {
        Slot {
            figures: Some(figures),
            makes: PhantomData,
        }
    }
}

impl<F: Copy, K: Makeable<Figures = F>> Slot<F, K> {
    /// What is made from the slot; none where the number is absent or the figures do not fit.
    pub fn made(&self) -> Option<K>
        ensures { Made K.fits K.figures_of self.now.figures result }
    {
        // Not by `and_then`: an absent corridor's figures would be copied before they are looked at.
        match self.figures {
            Some(figures) => K::make(&figures),
            None => None,
        }
    }
}

impl<F: Copy, K: Makeable<Figures = F>> Participant for Slot<F, K> {
    ghost MARK = { K.MARK };

    const MARK: Mark = K::MARK;

    ghost kind = { λ x. slot (is_strict K.MARK) K.fits K.meaning x.figures };

    ghost marked = { Prim.search rules };

    ghost sound = { λ x. slot_sound (is_strict K.MARK) K.fits K.meaning K.sound_where_fit x.figures };

    fn lawful(&self, schedule: &Schedule) -> bool {
        self.made()
            .map_or_else(|| schedule.is_empty(), |one| one.lawful(schedule))
    }

    fn cost(&self, schedule: &Schedule) -> i64 {
        self.made().map_or(0, |one| one.cost(schedule))
    }

    fn effect(&self, schedule: &Schedule, cell: Cell) -> i32 {
        self.made().map_or(0, |one| one.effect(schedule, cell))
    }

    fn best_surplus(&self, prices: &Prices) -> i64 {
        self.made().map_or(0, |one| one.best_surplus(prices))
    }
}
