// All lists together, in list order. One list more is one more line in each function: the lists are
// of three types, so no loop goes over them.
ghost use Rattle.std.specs.Prelude.{◌≡◌};
ghost use Rattle.market.specs.Cells.{first_cell, table};
ghost use Rattle.clearing.specs.Seats.{cost as cost_of, effect as effect_of, fit_lists, forgone as forgone_of, joined, lists_of};
ghost use Rattle.clearing.specs.Rules.{covered};
ghost use Rattle.clearing.specs.Verdict.{Passes, covering, kept, sized};

use crate::fitted::FittedLists;
use crate::outcome::{Lists, Scheduled};
use faults::{ClearingFault, ParticipantRule};
use market::cells::{Cell, Needs, Prices, first_failing};
use market::participant::Participant;
use names::lists::ListName;

impl<'a, A, B, C> Lists<'a, A, B, C> {
    /// Puts the lists together, in their order.
    pub fn new(
        ordinary: Scheduled<'a, A>,
        whole: Scheduled<'a, B>,
        corridors: Scheduled<'a, C>,
    ) -> Lists<'a, A, B, C>
        ensures { result ≡ record { ordinary = ordinary.entry; whole = whole.entry; corridors = corridors.entry } }
    {
        Lists {
            ordinary,
            whole,
            corridors,
        }
    }
}

impl<'a, A: Participant, B: Participant, C: Participant> Lists<'a, A, B, C> {
    // The lists under their names; refused at the first that is too long or has another number of
    // schedules.
    pub(crate) fn fitted(&self) -> Result<FittedLists<'a, A, B, C>, ClearingFault>
        ensures { Passes (sized (lists_of A.Participant.kind B.Participant.kind C.Participant.kind self.now)) (fit_lists A.Participant.kind B.Participant.kind C.Participant.kind) (lists_of A.Participant.kind B.Participant.kind C.Participant.kind self.now) result }
    {
        Ok(FittedLists {
            ordinary: self.ordinary.fitted(ListName::Ordinary)?,
            whole: self.whole.fitted(ListName::Whole)?,
            corridors: self.corridors.fitted(ListName::Corridors)?,
        })
    }
}

impl<'a, A: Participant, B: Participant, C: Participant> FittedLists<'a, A, B, C> {
    // Refuses the first participant that breaks a rule.
    pub(crate) fn check_rule(
        &self,
        rule: ParticipantRule,
        prices: &Prices,
    ) -> Result<(), ClearingFault>
        ensures { result ≡ kept rule (table prices.now.cents) (fit_lists A.Participant.kind B.Participant.kind C.Participant.kind self.now) }
    {
        self.ordinary.check_rule(rule, prices)?;
        self.whole.check_rule(rule, prices)?;
        self.corridors.check_rule(rule, prices)
    }

    // Refuses the first cell, by zone and then by quarter, whose effects do not add up to the need.
    pub(crate) fn check_needs(&self, needs: &Needs) -> Result<(), ClearingFault>
        ensures { result ≡ covering (table needs.now.megawatts) (fit_lists A.Participant.kind B.Participant.kind C.Participant.kind self.now) }
    {
        self.first_uncovered_cell(needs).map_or(Ok(()), |cell| {
            Err(ClearingFault::Uncovered {
                zone: cell.zone,
                quarter: cell.quarter,
            })
        })
    }

    // The first cell, by zone and then by quarter, whose effects do not add up to the need.
    fn first_uncovered_cell(&self, needs: &Needs) -> Option<Cell>
        ensures { result ≡ first_cell (covered (table needs.now.megawatts) (joined (fit_lists A.Participant.kind B.Participant.kind C.Participant.kind self.now))) }
    {
        first_failing(|cell| self.effect(cell) == i64::from(needs.at(cell)))
    }

    // What all participants add to a cell.
    fn effect(&self, cell: Cell) -> i64
        ensures { result ≡ effect_of (joined (fit_lists A.Participant.kind B.Participant.kind C.Participant.kind self.now)) cell.zone cell.quarter }
    {
        self.ordinary.effect(cell) + self.whole.effect(cell) + self.corridors.effect(cell)
    }

    // What the outcome costs.
    pub(crate) fn cost(&self) -> i64
        ensures { result ≡ cost_of (joined (fit_lists A.Participant.kind B.Participant.kind C.Participant.kind self.now)) }
    {
        self.ordinary.cost() + self.whole.cost() + self.corridors.cost()
    }

    // What all participants forgo.
    pub(crate) fn forgone(&self, prices: &Prices) -> i64
        ensures { result ≡ forgone_of (table prices.now.cents) (joined (fit_lists A.Participant.kind B.Participant.kind C.Participant.kind self.now)) }
    {
        self.ordinary.forgone(prices) + self.whole.forgone(prices) + self.corridors.forgone(prices)
    }
}
