// Verdicts at the edges.
use crate::figures::*;
use clearing::check::check as check_outcome;
use clearing::outcome::{Accepted, Lists, Scheduled};
use faults::{ClearingFault, Layer, Refusal};
use kinds::figures::BidFigures;
use market::cells::{Needs, Prices};
use market::schedule::Schedule;
use names::lists::Direction;
use names::numbered::Numbered;
use slots::slot::{CorridorSlot, OrdinarySlot, WholeSlot};
use std::marker::PhantomData;
use std::test::Fail;

// A slot in each list, and their schedules.
#[derive(Drop)]
struct Outcome {
    ordinary: OrdinarySlot,
    whole: WholeSlot,
    corridor: CorridorSlot,
    schedules: [Schedule; 3],
}

fn judged(outcome: &Outcome, needs: &Needs, prices: &Prices) -> Result<Accepted, ClearingFault> {
    let [first, second, third] = outcome.schedules;
    let ordinary_slots = [outcome.ordinary];
    let ordinary_schedules = [first];
    let whole_slots = [outcome.whole];
    let whole_schedules = [second];
    let corridor_slots = [outcome.corridor];
    let corridor_schedules = [third];
    let lists = Lists::new(
        Scheduled::new(&ordinary_slots, &ordinary_schedules),
        Scheduled::new(&whole_slots, &whole_schedules),
        Scheduled::new(&corridor_slots, &corridor_schedules),
    );
    check_outcome(&lists, needs, prices)
}

fn accepted(answer: Result<Accepted, ClearingFault>) -> Result<Accepted, Fail> {
    answer.map_err(|_| Fail::new("the outcome was refused"))
}

fn refused(answer: Result<Accepted, ClearingFault>) -> Result<Refusal, Fail> {
    answer
        .err()
        .map(|fault| fault.refusal())
        .ok_or_else(|| Fail::new("the outcome was accepted"))
}

fn level() -> Prices {
    prices(THIRTY_EUROS, THIRTY_EUROS)
}

fn free() -> Accepted {
    Accepted {
        cost: 0,
        forgone: 0,
    }
}

fn refusal(number: u8, first: u64, second: u64) -> Refusal {
    Refusal {
        number,
        layer: Layer::Sheet,
        first,
        second,
    }
}

// Ordinary up 40.00 with 100 MW and whole up 35.00 with 80 MW, with these MW scheduled.
fn two_bids(ordinary_megawatts: i32, whole_megawatts: i32) -> Outcome {
    Outcome {
        ordinary: ordinary(bid(0, Direction::Up, 80, 100)),
        whole: whole(bid(0, Direction::Up, 70, 80)),
        corridor: CorridorSlot::ABSENT,
        schedules: [
            quarter_0(ordinary_megawatts),
            quarter_0(whole_megawatts),
            Schedule::EMPTY,
        ],
    }
}

#[test]
fn cost_and_forgone_surplus_are_stated(rt: HostRuntime) -> Result<(), Fail> {
    let answer = judged(&two_bids(50, 0), &need(50), &prices(4_000, THIRTY_EUROS));
    assert_eq!(rt;
        accepted(answer)?,
        Accepted {
            cost: 200_000,
            forgone: 40_000,
        }
    );
    Ok(())
}

#[test]
fn one_megawatt_short_is_uncovered(rt: HostRuntime) -> Result<(), Fail> {
    let answer = judged(&two_bids(49, 0), &need(50), &prices(4_000, THIRTY_EUROS));
    let told = refused(answer)?;
    assert_eq!(rt; told, refusal(22, 0, 0));
    assert_eq!(rt; told.layer.number(), 3);
    Ok(())
}

#[test]
fn a_strict_bid_may_forgo_nothing(rt: HostRuntime) -> Result<(), Fail> {
    let answer = judged(&two_bids(50, 0), &need(50), &prices(3_900, THIRTY_EUROS));
    assert_eq!(rt; refused(answer)?, refusal(23, 2, 0));
    Ok(())
}

#[test]
fn a_whole_bid_must_not_lose(rt: HostRuntime) -> Result<(), Fail> {
    let at_its_price = judged(&two_bids(0, 80), &need(80), &prices(3_500, THIRTY_EUROS));
    assert_eq!(rt;
        accepted(at_its_price)?,
        Accepted {
            cost: 280_000,
            forgone: 0,
        }
    );
    let below = judged(&two_bids(0, 80), &need(80), &prices(3_400, THIRTY_EUROS));
    assert_eq!(rt; refused(below)?, refusal(24, 3, 0));
    Ok(())
}

#[test]
fn a_part_of_a_whole_bid_is_unlawful(rt: HostRuntime) -> Result<(), Fail> {
    let answer = judged(&two_bids(0, 79), &need(79), &prices(3_500, THIRTY_EUROS));
    assert_eq!(rt; refused(answer)?, refusal(21, 3, 0));
    Ok(())
}

#[test]
fn an_idle_corridor_forgoes_a_cent(rt: HostRuntime) -> Result<(), Fail> {
    let outcome = Outcome {
        ordinary: OrdinarySlot::ABSENT,
        whole: WholeSlot::ABSENT,
        corridor: corridor(1, 0, 20, 0),
        schedules: [Schedule::EMPTY; 3],
    };
    assert_eq!(rt; accepted(judged(&outcome, &need(0), &level()))?, free());
    let answer = judged(&outcome, &need(0), &prices(3_001, THIRTY_EUROS));
    assert_eq!(rt; refused(answer)?, refusal(23, 4, 0));
    Ok(())
}

// The other two lists, where only ordinary bids matter.
struct Absent {
    whole: [WholeSlot; 1],
    corridors: [CorridorSlot; 1],
    schedules: [Schedule; 1],
}

// Rattle does not take a constant of a generic block, as `WholeSlot::ABSENT`, in a constant yet.
const ABSENT: Absent = Absent {
    whole: [WholeSlot {
        figures: None,
        makes: PhantomData,
    }],
    corridors: [CorridorSlot {
        figures: None,
        makes: PhantomData,
    }],
    schedules: [Schedule::EMPTY],
};

fn judged_beside<'x>(
    slots: &'x [OrdinarySlot],
    schedules: &'x [Schedule],
    absent: &'x Absent,
    needs: &Needs,
    prices: &Prices,
) -> Result<Accepted, ClearingFault> {
    let lists = Lists::new(
        Scheduled::new(slots, schedules),
        Scheduled::new(&absent.whole, &absent.schedules),
        Scheduled::new(&absent.corridors, &absent.schedules),
    );
    check_outcome(&lists, needs, prices)
}

fn judged_ordinary(
    slots: &[OrdinarySlot],
    schedules: &[Schedule],
    needs: &Needs,
    prices: &Prices,
) -> Result<Accepted, ClearingFault> {
    judged_beside(slots, schedules, &ABSENT, needs, prices)
}

#[test]
fn the_lowest_zone_comes_before_the_lowest_quarter(rt: HostRuntime) -> Result<(), Fail> {
    let mut bad = level();
    bad.cents[3][3] = -1_000_001;
    bad.cents[7][1] = 1_000_001;
    let answer = judged(&two_bids(50, 0), &need(50), &bad);
    assert_eq!(rt; refused(answer)?, refusal(20, 3, 3));
    let mut wanted = need(0);
    wanted.megawatts[1][3] = 10;
    wanted.megawatts[2][0] = -10;
    let answer = judged(&two_bids(0, 0), &wanted, &level());
    assert_eq!(rt; refused(answer)?, refusal(22, 1, 3));
    Ok(())
}

#[test]
fn prices_at_the_ends_of_the_range_are_in_it(rt: HostRuntime) -> Result<(), Fail> {
    let mut ends = level();
    ends.cents[3][3] = -1_000_000;
    ends.cents[7][1] = 1_000_000;
    let answer = judged(&two_bids(0, 0), &need(0), &ends);
    assert_eq!(rt; accepted(answer)?, free());
    Ok(())
}

#[test]
fn participants_are_counted_from_0(rt: HostRuntime) -> Result<(), Fail> {
    let slots = [
        OrdinarySlot::ABSENT,
        ordinary(bid(0, Direction::Up, 80, 100)),
        ordinary(bid(0, Direction::Up, 80, 100)),
    ];
    let schedules = [Schedule::EMPTY, quarter_0(101), quarter_0(-1)];
    let answer = judged_ordinary(&slots, &schedules, &need(0), &level());
    assert_eq!(rt; refused(answer)?, refusal(21, 2, 1));
    Ok(())
}

#[test]
fn a_rule_is_tried_everywhere_before_the_next(rt: HostRuntime) -> Result<(), Fail> {
    // The whole bid loses, and the corridor behind it forgoes a cent: 23 comes before 24.
    let losing = Outcome {
        corridor: corridor(1, 0, 20, 0),
        ..two_bids(0, 80)
    };
    let answer = judged(&losing, &need(80), &prices(3_400, 3_399));
    assert_eq!(rt; refused(answer)?, refusal(23, 4, 0));
    // A part of the whole bid, and too little: 21 comes before 22.
    let answer = judged(&two_bids(0, 79), &need(50), &prices(3_500, THIRTY_EUROS));
    assert_eq!(rt; refused(answer)?, refusal(21, 3, 0));
    // A schedule is missing, and a price is out of range: 19 comes before 20.
    let slots = [ordinary(bid(0, Direction::Up, 80, 100))];
    let answer = judged_ordinary(&slots, &[], &need(0), &prices(1_000_001, 0));
    assert_eq!(rt; refused(answer)?, refusal(19, 2, 0));
    Ok(())
}

#[test]
fn lists_are_named_by_position_whatever_their_kind(rt: HostRuntime) -> Result<(), Fail> {
    let bids = [whole(bid(0, Direction::Up, 70, 80))];
    let flows = [corridor(1, 0, 20, 0)];
    let rest = [ordinary(bid(1, Direction::Up, 80, 100))];
    let taken = [quarter_0(80)];
    let idle = [Schedule::EMPTY];
    let lists = Lists::new(
        Scheduled::new(&bids, &taken),
        Scheduled::new(&flows, &idle),
        Scheduled::new(&rest, &idle),
    );
    let answer = check_outcome(&lists, &need(80), &prices(3_400, 3_400));
    assert_eq!(rt; refused(answer)?, refusal(24, 2, 0));
    let answer = check_outcome(&lists, &need(80), &prices(3_500, 3_499));
    assert_eq!(rt; refused(answer)?, refusal(23, 3, 0));
    let answer = check_outcome(&lists, &need(80), &prices(4_001, 4_001));
    assert_eq!(rt; refused(answer)?, refusal(23, 4, 0));
    Ok(())
}

#[test]
fn a_whole_bid_may_lose_in_one_quarter(rt: HostRuntime) -> Result<(), Fail> {
    // Up 31.00, 20 MW in quarters 0 and 1, at 36.00 and 29.00.
    let slot = WholeSlot::new(BidFigures {
        quantities: [20, 20, 0, 0],
        ..bid(0, Direction::Up, 62, 0)
    });
    let outcome = Outcome {
        ordinary: OrdinarySlot::ABSENT,
        whole: slot,
        corridor: CorridorSlot::ABSENT,
        schedules: [
            Schedule::EMPTY,
            Schedule {
                megawatts: [20, 20, 0, 0],
            },
            Schedule::EMPTY,
        ],
    };
    let mut wanted = need(20);
    wanted.megawatts[0][1] = 20;
    let mut paid = prices(3_600, THIRTY_EUROS);
    paid.cents[0][1] = 2_900;
    assert_eq!(rt;
        accepted(judged(&outcome, &wanted, &paid))?,
        Accepted {
            cost: 124_000,
            forgone: 0,
        }
    );
    Ok(())
}

#[test]
fn a_corridor_brings_power_from_the_cheaper_zone(rt: HostRuntime) -> Result<(), Fail> {
    // Need 50 in zone 0: 20 MW come from zone 1 at 29.00, 30 MW from zone 0 at 35.00.
    let far = BidFigures {
        quantities: [40; 4],
        ..bid(1, Direction::Up, 58, 0)
    };
    let near = BidFigures {
        quantities: [60; 4],
        ..bid(0, Direction::Up, 70, 0)
    };
    let bids = [ordinary(far), ordinary(near)];
    let volumes = [quarter_0(20), quarter_0(30)];
    let nothing: [WholeSlot; 0] = [];
    let none: [Schedule; 0] = [];
    let corridors = [corridor(1, 0, 20, 0)];
    let flow = [quarter_0(20)];
    let mut paid = Prices {
        cents: [[2_800; 4]; 12],
    };
    paid.cents[0][0] = 3_500;
    paid.cents[1][0] = 2_900;
    let lists = Lists::new(
        Scheduled::new(&bids, &volumes),
        Scheduled::new(&nothing, &none),
        Scheduled::new(&corridors, &flow),
    );
    assert_eq!(rt;
        accepted(check_outcome(&lists, &need(50), &paid))?,
        Accepted {
            cost: 163_000,
            forgone: 0,
        }
    );
    Ok(())
}

#[test]
fn a_down_bid_covers_a_negative_need(rt: HostRuntime) -> Result<(), Fail> {
    let slots = [ordinary(bid(0, Direction::Down, 50, 40))];
    let schedules = [quarter_0(-15)];
    let answer = judged_ordinary(&slots, &schedules, &need(-15), &prices(2_500, 0));
    assert_eq!(rt;
        accepted(answer)?,
        Accepted {
            cost: -37_500,
            forgone: 0,
        }
    );
    Ok(())
}

#[test]
fn a_list_of_256_fits_and_one_of_257_does_not(rt: HostRuntime) -> Result<(), Fail> {
    let slots = [OrdinarySlot::ABSENT; 257];
    let schedules = [Schedule::EMPTY; 257];
    let answer = judged_ordinary(&slots[0..256], &schedules[0..256], &need(0), &level());
    assert_eq!(rt; accepted(answer)?, free());
    let answer = judged_ordinary(&slots, &schedules, &need(0), &level());
    assert_eq!(rt; refused(answer)?, refusal(19, 2, 0));
    Ok(())
}

#[test]
fn a_schedule_too_many_does_not_fit(rt: HostRuntime) -> Result<(), Fail> {
    let ordinary = [OrdinarySlot::ABSENT];
    let whole = [WholeSlot::ABSENT];
    let corridors = [CorridorSlot::ABSENT];
    let one = [Schedule::EMPTY];
    let two = [Schedule::EMPTY; 2];
    let third = Lists::new(
        Scheduled::new(&ordinary, &one),
        Scheduled::new(&whole, &one),
        Scheduled::new(&corridors, &two),
    );
    let answer = check_outcome(&third, &need(0), &level());
    assert_eq!(rt; refused(answer)?, refusal(19, 4, 0));
    let second_and_third = Lists::new(
        Scheduled::new(&ordinary, &one),
        Scheduled::new(&whole, &two),
        Scheduled::new(&corridors, &two),
    );
    let answer = check_outcome(&second_and_third, &need(0), &level());
    assert_eq!(rt; refused(answer)?, refusal(19, 3, 0));
    Ok(())
}
