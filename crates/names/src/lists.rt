// The names that records carry: lists, directions and totals.
ghost use Rattle.std.specs.Prelude.{◌≡◌};
ghost use Rattle.names.specs.Names.{direction_number, directions, has_bids, list_number, list_size, lists, total_number, totals};
ghost use Rattle.names.specs.Cases.{direction_found, list_found, total_found};

use crate::numbered::{FromNumber, Numbered};

/// A list of participants; the cases stand in list order.
#[derive(Clone, Copy, PartialEq, Eq, Debug)]
pub enum ListName {
    Ordinary = 2,
    Whole,
    Corridors,
}

const LISTS: [ListName; 3] = [ListName::Ordinary, ListName::Whole, ListName::Corridors];

impl Numbered for ListName {
    ghost number = { list_number };

    // A list is named by the kind of record that enters its participants.
    fn number(self) -> u8 {
        self as u8
    }
}

impl FromNumber for ListName {
    ghost cases = { lists };

    ghost found = { list_found };

    fn cases() -> &'static [ListName] {
        &LISTS
    }
}

impl ListName {
    /// How many numbers the list has, from 0.
    pub fn size(self) -> u16
        ensures { result ≡ list_size self }
    {
        match self {
            ListName::Ordinary => 256,
            ListName::Whole => 64,
            ListName::Corridors => 32,
        }
    }

    /// Whether the list's participants are bids.
    pub fn has_bids(self) -> bool
        ensures { result ≡ has_bids self }
    {
        match self {
            ListName::Ordinary | ListName::Whole => true,
            ListName::Corridors => false,
        }
    }
}

/// The direction of a bid: more power in its zone, or less.
#[derive(Clone, Copy, PartialEq, Eq, Debug)]
pub enum Direction {
    Up,
    Down,
}

const DIRECTIONS: [Direction; 2] = [Direction::Up, Direction::Down];

impl Numbered for Direction {
    ghost number = { direction_number };

    fn number(self) -> u8 {
        self as u8 // 0 up, 1 down
    }
}

impl FromNumber for Direction {
    ghost cases = { directions };

    ghost found = { direction_found };

    fn cases() -> &'static [Direction] {
        &DIRECTIONS
    }
}

/// One of the totals that end a statement, in their order.
#[derive(Clone, Copy, PartialEq, Eq, Debug)]
pub enum TotalName {
    Cost = 1,
    ForgoneSurplus,
    NeedsValue,
    TopUps,
    Payments,
    CongestionIncome,
    Deductions,
}

const TOTALS: [TotalName; 7] = [
    TotalName::Cost,
    TotalName::ForgoneSurplus,
    TotalName::NeedsValue,
    TotalName::TopUps,
    TotalName::Payments,
    TotalName::CongestionIncome,
    TotalName::Deductions,
];

impl Numbered for TotalName {
    ghost number = { total_number };

    fn number(self) -> u8 {
        self as u8
    }
}

impl FromNumber for TotalName {
    ghost cases = { totals };

    ghost found = { total_found };

    fn cases() -> &'static [TotalName] {
        &TOTALS
    }
}
