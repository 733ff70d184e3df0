// Slots, schedules and prices for the examples. Where only quarter 0 is named, the other quarters
// have 0 MW.
use kinds::figures::{BidFigures, CorridorFigures};
use market::cells::{CellTable, Needs, Prices};
use market::schedule::Schedule;
use names::lists::Direction;
use slots::slot::{CorridorSlot, OrdinarySlot, WholeSlot};

pub(crate) const THIRTY_EUROS: i32 = 3_000;

pub(crate) fn bid(zone: u8, direction: Direction, half_euros: i32, megawatts: u16) -> BidFigures {
    BidFigures {
        zone,
        direction,
        half_euros,
        station_group: 0,
        quantities: [megawatts, 0, 0, 0],
    }
}

pub(crate) fn ordinary(figures: BidFigures) -> OrdinarySlot {
    OrdinarySlot::new(figures)
}

pub(crate) fn whole(figures: BidFigures) -> WholeSlot {
    WholeSlot::new(figures)
}

pub(crate) fn corridor(from_zone: u8, to_zone: u8, forward: u16, backward: u16) -> CorridorSlot {
    CorridorSlot::new(CorridorFigures {
        from_zone,
        to_zone,
        forward: [forward, 0, 0, 0],
        backward: [backward, 0, 0, 0],
    })
}

pub(crate) fn quarter_0(megawatts: i32) -> Schedule {
    Schedule {
        megawatts: [megawatts, 0, 0, 0],
    }
}

// 30.00 EUR in every cell, but for quarter 0 of zones 0 and 1.
pub(crate) fn prices(zone_0: i32, zone_1: i32) -> Prices {
    let mut cents: CellTable = [[THIRTY_EUROS; 4]; 12];
    cents[0][0] = zone_0;
    cents[1][0] = zone_1;
    Prices { cents }
}

// A need in zone 0 in quarter 0.
pub(crate) fn need(megawatts: i32) -> Needs {
    let mut needs: CellTable = [[0; 4]; 12];
    needs[0][0] = megawatts;
    Needs { megawatts: needs }
}
