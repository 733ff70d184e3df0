// A bid: a participant that also tells zone, direction, price and station group. What these say of
// its lawful schedules, their effects and their costs stands on the functions that tell them.
ghost use Rattle.std.specs.Prelude.{◌≡◌, ℕ, ℤ};
ghost use Rattle.names.specs.declared.lists.Direction.{Direction};
ghost use Rattle.market.specs.Bids.{ActsInZone, CostsPrice, RunsAlong};

use crate::participant::Participant;
use names::lists::Direction;

/// A bid of some kind.
pub trait Bid: Participant {
    ghost zone: { Self → ℕ };

    ghost direction: { Self → Direction };

    ghost price: { Self → ℤ };

    ghost group: { Self → ℕ };

    /// The zone in which its schedules take effect.
    fn zone(&self) -> usize
        ensures value { result ≡ zone self.now }
        ensures effect { ActsInZone (Self.Participant.kind self.now) result };

    /// The direction against which no lawful schedule runs.
    fn direction(&self) -> Direction
        ensures value { result ≡ direction self.now }
        ensures along { RunsAlong (Self.Participant.kind self.now) result };

    /// The price in cents per MWh: a lawful schedule costs the price times the sum of its MW.
    fn price(&self) -> i32
        ensures value { result ≡ price self.now }
        ensures cost { CostsPrice (Self.Participant.kind self.now) result };

    /// The station group.
    fn station_group(&self) -> u16
        ensures { result ≡ group self.now };
}
