// Plain figures of participants, as they are entered. All numbers are admitted; a bid or a corridor
// is made from figures that fit.
ghost use Rattle.std.specs.Prelude.{◌≡◌, ◌≤◌, pos, slice_index};
ghost use Rattle.limits.specs.Limits.{quarters};

use limits::QUARTERS;
use names::lists::Direction;

/// The figures of an ordinary or a whole bid. The price is in half euros per MWh.
#[derive(Clone, Copy, PartialEq, Eq, Debug)]
pub struct BidFigures {
    pub zone: u8,
    pub direction: Direction,
    pub half_euros: i32,
    pub station_group: u16,
    pub quantities: [u16; QUARTERS],
}

/// The figures of a corridor: its limits in MW for each quarter, forward from the from-zone to the
/// to-zone.
#[derive(Clone, Copy, PartialEq, Eq, Debug)]
pub struct CorridorFigures {
    pub from_zone: u8,
    pub to_zone: u8,
    pub forward: [u16; QUARTERS],
    pub backward: [u16; QUARTERS],
}

// The figure of a quarter; 0 where there is no such quarter.
pub(crate) fn in_quarter(figures: &[u16; QUARTERS], quarter: usize) -> i32
    ensures value { result ≡ pos (slice_index figures.now quarter) }
    ensures past { quarters ≤ quarter → result ≡ pos 0 }
{
    figures.get(quarter).map_or(0, |&figure| i32::from(figure))
}
