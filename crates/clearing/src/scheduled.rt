// One list: whether it fits; then what its participants cost, add to a cell and forgo together, and
// who breaks a rule first.
ghost use Rattle.std.specs.Prelude.{◌≡◌, ℕ, ◌*◌, ℤ};
ghost use Rattle.limits.specs.Limits.{list_limit};
ghost use Rattle.market.specs.Cells.{table};
ghost use Rattle.market.specs.Sums.{sum_over};
ghost use Rattle.market.specs.Tests.{Within};
ghost use Rattle.clearing.specs.Seats.{Amounts, Seat as SeatOf, Small, cost as cost_of, effect as effect_of, fit_list, fitting, forgoes_limit, forgone as forgone_of, list_cost_limit, list_effect_limit, list_forgone_limit, lent};
ghost use Rattle.clearing.specs.Rules.{keeps as keeps_of};
ghost use Rattle.clearing.specs.Verdict.{Passes, first_failing, fitted, kept_in};

use crate::fitted::Fitted;
use crate::outcome::Scheduled;
use crate::rules::{forgoes, keeps};
use faults::{ClearingFault, ParticipantRule};
use limits::LIST_LIMIT;
use market::cells::{Cell, Prices};
use market::participant::Participant;
use market::schedule::Schedule;
use market::surplus::Seat;
use names::lists::ListName;

impl<'a, K> Scheduled<'a, K> {
    /// Puts participants and their schedules together.
    pub fn new(participants: &'a [K], schedules: &'a [Schedule]) -> Scheduled<'a, K>
        ensures participants { result.participants.now ≡ participants.now }
        ensures schedules { result.schedules.now ≡ schedules.now }
    {
        Scheduled {
            participants,
            schedules,
        }
    }

    // Whether the list is no longer than it may be, and has a schedule for each participant.
    fn fits(&self) -> bool
        ensures { result ≡ fitting self.now }
    {
        self.participants.len() <= LIST_LIMIT && self.schedules.len() == self.participants.len()
    }
}

impl<'a, K: Participant> Scheduled<'a, K> {
    // The list under its name; refused where it does not fit.
    pub(crate) fn fitted(&self, name: ListName) -> Result<Fitted<'a, K>, ClearingFault>
        ensures { Passes (fitted (lent name K.Participant.kind self.now)) (fit_list K.Participant.kind) (lent name K.Participant.kind self.now) result }
    {
        if self.fits() {
            Ok(Fitted {
                name,
                participants: self.participants,
                schedules: self.schedules,
            })
        } else {
            Err(ClearingFault::Misfit { list: name })
        }
    }
}

impl<'a, K: Participant> Fitted<'a, K> {
    // Refuses the first participant that breaks a rule.
    pub(crate) fn check_rule(
        &self,
        rule: ParticipantRule,
        prices: &Prices,
    ) -> Result<(), ClearingFault>
        ensures { result ≡ kept_in rule (table prices.now.cents) (fit_list K.Participant.kind self.now) }
    {
        let list = self.name;
        self.first_breach(rule, prices).map_or(Ok(()), |number| {
            Err(ClearingFault::Breach { rule, list, number })
        })
    }

    // The number of the first participant that breaks a rule.
    fn first_breach(&self, rule: ParticipantRule, prices: &Prices) -> Option<usize>
        ensures { result ≡ first_failing (keeps_of rule (table prices.now.cents)) (fit_list K.Participant.kind self.now).seats }
    {
        self.participants.iter().zip(self.schedules).position(|(participant, schedule)| {
            !keeps(
                &Seat {
                    participant,
                    schedule,
                },
                rule,
                prices,
            )
        })
    }

    // What the schedules cost together.
    pub(crate) fn cost(&self) -> i64
        ensures value { result ≡ cost_of (fit_list K.Participant.kind self.now).seats }
        ensures within { Within list_cost_limit result }
    {
        self.sum(|seat| seat.participant.cost(seat.schedule))
    }

    // What the schedules add to a cell together.
    pub(crate) fn effect(&self, cell: Cell) -> i64
        ensures value { result ≡ effect_of (fit_list K.Participant.kind self.now).seats cell.zone cell.quarter }
        ensures within { Within list_effect_limit result }
    {
        self.sum(|seat| i64::from(seat.participant.effect(seat.schedule, cell)))
    }

    // What the participants forgo together.
    pub(crate) fn forgone(&self, prices: &Prices) -> i64
        ensures value { result ≡ forgone_of (table prices.now.cents) (fit_list K.Participant.kind self.now).seats }
        ensures within { Within list_forgone_limit result }
    {
        self.sum(|seat| forgoes(&seat, prices))
    }

    // The sum of an amount of each participant with its schedule. Not by `sum_below`, which goes over
    // numbers, of zones or quarters, and would need an index into both slices.
    fn sum<F: Fn(Seat<'a, K>) -> i64>(&self, amount: F) -> i64
        requires callable { F.IsAlwaysCallable amount }
        requires small { Small (F.post amount) forgoes_limit }
        ensures value { (f : SeatOf → ℤ) → Amounts K.Participant.kind (F.post amount) f → result ≡ sum_over f (fit_list K.Participant.kind self.now).seats }
        ensures within { (limit : ℕ) → Small (F.post amount) limit → Within (list_limit * limit) result }
    {
        let mut sum = 0;
        for (participant, schedule) in self.participants.iter().zip(self.schedules) {
            sum += amount(Seat {
                participant,
                schedule,
            });
        }
        sum
    }
}
