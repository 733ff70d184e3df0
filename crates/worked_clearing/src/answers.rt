// What slots answer to the four questions.
use crate::figures::*;
use market::cells::Cell;
use market::participant::Participant;
use market::schedule::Schedule;
use names::lists::Direction;

const HERE: Cell = Cell {
    zone: 0,
    quarter: 0,
};

const THERE: Cell = Cell {
    zone: 1,
    quarter: 0,
};

#[test]
fn a_down_bid_runs_down(rt: HostRuntime) {
    let slot = ordinary(bid(0, Direction::Down, 50, 40));
    assert!(rt; slot.lawful(&quarter_0(-40)) && !slot.lawful(&quarter_0(-41)));
    assert!(rt; !slot.lawful(&quarter_0(1)));
    assert_eq!(rt; slot.cost(&quarter_0(-15)), -37_500);
    assert_eq!(rt; slot.effect(&quarter_0(-15), HERE), -15);
    assert_eq!(rt; slot.effect(&quarter_0(-15), THERE), 0);
    // At 20.00 each of the 40 MW gains 5.00 EUR per MWh for a quarter; at 30.00 none gains.
    assert_eq!(rt; slot.best_surplus(&prices(2_000, 0)), 20_000);
    assert_eq!(rt; slot.best_surplus(&prices(3_000, 0)), 0);
}

#[test]
fn an_unlawful_schedule_costs_and_does_nothing(rt: HostRuntime) {
    let slot = whole(bid(0, Direction::Up, 70, 80));
    assert!(rt; slot.lawful(&quarter_0(80)) && slot.lawful(&Schedule::EMPTY));
    assert!(rt; !slot.lawful(&quarter_0(40)));
    assert_eq!(rt; slot.cost(&quarter_0(40)), 0);
    assert_eq!(rt; slot.effect(&quarter_0(40), HERE), 0);
}

#[test]
fn a_flow_leaves_one_zone_and_enters_the_other(rt: HostRuntime) {
    let slot = corridor(1, 0, 20, 5);
    assert!(rt; slot.lawful(&quarter_0(20)) && slot.lawful(&quarter_0(-5)));
    assert!(rt; !slot.lawful(&quarter_0(21)) && !slot.lawful(&quarter_0(-6)));
    assert_eq!(rt; slot.effect(&quarter_0(20), HERE), 20);
    assert_eq!(rt; slot.effect(&quarter_0(20), THERE), -20);
    assert_eq!(rt; slot.cost(&quarter_0(20)), 0);
    // Forward where the to-zone is dearer, backward where it is cheaper.
    assert_eq!(rt; slot.best_surplus(&prices(3_010, 3_000)), 200);
    assert_eq!(rt; slot.best_surplus(&prices(3_000, 3_010)), 50);
}

#[test]
fn no_cell_and_no_price_give_nothing(rt: HostRuntime) {
    let slot = ordinary(bid(0, Direction::Up, 80, 100));
    let past_the_hour = Cell {
        zone: 0,
        quarter: 4,
    };
    assert_eq!(rt; slot.effect(&quarter_0(50), past_the_hour), 0);
    let mut bad = prices(5_000, 0);
    assert_eq!(rt; slot.best_surplus(&bad), 100_000);
    bad.cents[11][3] = 1_000_001;
    assert_eq!(rt; slot.best_surplus(&bad), 0);
}

#[test]
fn what_cannot_be_made_has_the_empty_schedule_alone(rt: HostRuntime) {
    let small = ordinary(bid(0, Direction::Up, 80, 9));
    let nowhere = ordinary(bid(12, Direction::Up, 80, 100));
    let dear = whole(bid(0, Direction::Up, 20_001, 100));
    let circle = corridor(3, 3, 20, 20);
    assert!(rt; small.lawful(&Schedule::EMPTY) && !small.lawful(&quarter_0(9)));
    assert!(rt; nowhere.lawful(&Schedule::EMPTY) && !nowhere.lawful(&quarter_0(50)));
    assert!(rt; dear.lawful(&Schedule::EMPTY) && !dear.lawful(&quarter_0(100)));
    assert!(rt; circle.lawful(&Schedule::EMPTY) && !circle.lawful(&quarter_0(20)));
    assert_eq!(rt; small.best_surplus(&prices(9_000, 0)), 0);
}

fn makes_ordinary(half_euros: i32, megawatts: u16) -> bool {
    ordinary(bid(11, Direction::Down, half_euros, megawatts))
        .made()
        .is_some()
}

fn makes_whole(megawatts: u16) -> bool {
    whole(bid(11, Direction::Down, 0, megawatts))
        .made()
        .is_some()
}

fn makes_corridor(forward: u16, backward: u16) -> bool {
    corridor(0, 11, forward, backward).made().is_some()
}

#[test]
fn bids_and_corridors_are_made_up_to_the_ends_of_their_ranges(rt: HostRuntime) {
    assert!(rt; makes_ordinary(-20_000, 10) && makes_ordinary(20_000, 9_999));
    assert!(rt; makes_ordinary(0, 0) && !makes_ordinary(0, 9) && !makes_ordinary(0, 10_000));
    assert!(rt; !makes_ordinary(-20_001, 10) && !makes_ordinary(20_001, 10));
    assert!(rt; makes_whole(0) && makes_whole(10) && makes_whole(9_999));
    assert!(rt; !makes_whole(9) && !makes_whole(10_000));
    assert!(rt; makes_corridor(0, 0) && makes_corridor(4_095, 4_095));
    assert!(rt; !makes_corridor(4_096, 0) && !makes_corridor(0, 4_096));
}
