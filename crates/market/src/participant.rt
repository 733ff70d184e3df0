// A participant of some kind: four questions, none of which changes anything, and a mark.
ghost use Rattle.std.specs.Prelude.{◌≡◌};
ghost use Rattle.market.specs.Cells.{table};
ghost use Rattle.market.specs.Kinds.{Kind, Sound, is_strict};
ghost use Rattle.market.specs.declared.participant.Mark.{Mark};

use crate::cells::{Cell, Prices};
use crate::schedule::Schedule;

/// What the clearing rules ask of a kind.
#[derive(Clone, Copy, PartialEq, Eq, Debug)]
pub enum Mark {
    /// Participants of the kind may forgo nothing.
    Strict,
    /// They must not lose, and may forgo something.
    Lenient,
}

impl Mark {
    /// Whether it is the strict one.
    pub fn is_strict(self) -> bool
        ensures { result ≡ is_strict self }
    {
        matches!(self, Mark::Strict)
    }
}

/// A participant. Its kind is known by its answers (specs/Kinds.antt) and keeps the laws of a kind.
pub trait Participant {
    // As clauses read the constant below: each kind gives both, and the check proves them equal.
    ghost MARK: { Mark };

    /// The mark that the kind bears.
    const MARK: Mark;

    // The meaning of this participant.
    ghost kind: { Self → Kind };

    /// Whether a schedule is lawful.
    fn lawful(&self, schedule: &Schedule) -> bool
        ensures { result ≡ (kind self.now).lawful schedule.now.megawatts };

    /// The cost of a schedule in money units; 0 where it is unlawful.
    fn cost(&self, schedule: &Schedule) -> i64
        ensures { result ≡ (kind self.now).cost schedule.now.megawatts };

    /// The MW that a schedule adds to a cell; 0 where it is unlawful or there is no such cell.
    fn effect(&self, schedule: &Schedule, cell: Cell) -> i32
        ensures { result ≡ (kind self.now).effect schedule.now.megawatts cell.zone cell.quarter };

    /// The greatest surplus of a lawful schedule at given prices, in money units; 0 where a price
    /// is out of its range.
    fn best_surplus(&self, prices: &Prices) -> i64
        ensures { result ≡ (kind self.now).best (table prices.now.cents) };

    ghost marked: { (x : Self) → (kind x).strict ≡ is_strict MARK };

    ghost sound: { (x : Self) → Sound (kind x) };
}
