// The clearing rules that are asked of one participant.
ghost use Rattle.std.specs.Prelude.{◌≡◌};
ghost use Rattle.market.specs.Cells.{table};
ghost use Rattle.market.specs.Tests.{Within};
ghost use Rattle.clearing.specs.Seats.{forgoes as forgoes_of, forgoes_limit, taken};
ghost use Rattle.clearing.specs.Rules.{keeps as keeps_of};

use faults::ParticipantRule;
use market::cells::Prices;
use market::participant::Participant;
use market::surplus::Seat;

// Whether the participants of this kind are strict. The participant is taken only for the promise
// to name its meaning: what is read is the mark of the kind.
fn is_strict<K: Participant>(participant: &K) -> bool
    ensures { result ≡ (K.Participant.kind participant.now).strict }
{
    K::MARK.is_strict()
}

// What a participant forgoes: its best surplus less its own.
pub(crate) fn forgoes<K: Participant>(seat: &Seat<K>, prices: &Prices) -> i64
    ensures value { result ≡ forgoes_of (table prices.now.cents) (taken K.Participant.kind seat.now) }
    ensures within { Within forgoes_limit result }
{
    seat.participant.best_surplus(prices) - seat.surplus(prices)
}

// Whether a participant keeps a rule. The rule is a case of an enum, since a fault names it too:
// with a closure for each there would be a second list of the rules.
pub(crate) fn keeps<K: Participant>(seat: &Seat<K>, rule: ParticipantRule, prices: &Prices) -> bool
    ensures { result ≡ keeps_of rule (table prices.now.cents) (taken K.Participant.kind seat.now) }
{
    match rule {
        ParticipantRule::Lawful => seat.participant.lawful(seat.schedule),
        ParticipantRule::StrictForgoesNothing => {
            !is_strict(seat.participant) || forgoes(seat, prices) == 0
        }
        ParticipantRule::LenientLosesNothing => {
            is_strict(seat.participant) || seat.surplus(prices) >= 0
        }
    }
}
