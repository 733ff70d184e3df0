// The clearing check.
ghost use Rattle.std.specs.Prelude.{◌≡◌};
ghost use Rattle.market.specs.Cells.{table};
ghost use Rattle.clearing.specs.Seats.{fit_lists, lists_of};
ghost use Rattle.clearing.specs.Verdict.{Checked, priced, ruled};

use crate::fitted::FittedLists;
use crate::outcome::{Accepted, Lists};
use faults::{ClearingFault, ParticipantRule};
use market::cells::{Needs, Prices};
use market::participant::Participant;

/// Accepts an outcome that keeps the clearing rules, and states its cost and its forgone surplus;
/// or names what is wrong first: a list that does not fit, a price out of its range, or a broken
/// rule. Each is looked for everywhere before the next. Whatever the kinds of the participants are,
/// no lawful outcome that covers the needs costs less than the stated cost by more than the stated
/// forgone surplus.
pub fn check<A: Participant, B: Participant, C: Participant>(
    lists: &Lists<A, B, C>,
    needs: &Needs,
    prices: &Prices,
) -> Result<Accepted, ClearingFault>
    ensures { Checked (table needs.now.megawatts) (table prices.now.cents) (lists_of A.Participant.kind B.Participant.kind C.Participant.kind lists.now) result }
{
    let fitted = lists.fitted()?;
    check_prices(prices)?;
    apply_rules(&fitted, needs, prices)
}

// Refuses the first price out of its range.
fn check_prices(prices: &Prices) -> Result<(), ClearingFault>
    ensures { result ≡ priced (table prices.now.cents) }
{
    prices.first_out_of_range().map_or(Ok(()), |cell| {
        Err(ClearingFault::PriceOutOfRange {
            zone: cell.zone,
            quarter: cell.quarter,
        })
    })
}

// The four rules, each everywhere before the next.
fn apply_rules<A: Participant, B: Participant, C: Participant>(
    lists: &FittedLists<A, B, C>,
    needs: &Needs,
    prices: &Prices,
) -> Result<Accepted, ClearingFault>
    ensures { result ≡ ruled (table needs.now.megawatts) (table prices.now.cents) (fit_lists A.Participant.kind B.Participant.kind C.Participant.kind lists.now) }
{
    lists.check_rule(ParticipantRule::Lawful, prices)?;
    lists.check_needs(needs)?;
    lists.check_rule(ParticipantRule::StrictForgoesNothing, prices)?;
    lists.check_rule(ParticipantRule::LenientLosesNothing, prices)?;
    Ok(Accepted {
        cost: lists.cost(),
        forgone: lists.forgone(prices),
    })
}
