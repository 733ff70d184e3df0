// The numbers of the market that several layers share: the table of record fields, cells, the kinds
// of participants and the clearing check take theirs from here. A number that only one layer has
// stands there (the fields of money and counts in `layout`, the sizes of the sheet's lists in
// `names`).
#![tactic(auto)]

ghost use Rattle.std.specs.Prelude.{◌≡◌, pos};
ghost use Rattle.limits.specs.Limits.{is_quantity, least_ordinary};

/// Bidding zones, numbered from 0.
pub const ZONES: usize = 12;

/// Quarters of the hour, numbered from 0: the market time unit.
pub const QUARTERS: usize = 4;

/// Prices lie from minus this to this, in cents per MWh.
pub const PRICE_LIMIT: i64 = 1_000_000;

/// The prices of bids lie from minus this to this, in half euros per MWh.
pub const HALF_EUROS_LIMIT: i64 = 20_000;

/// Cents in half a euro.
pub const CENTS_IN_HALF_EURO: i32 = 50;

/// The need of a cell lies from minus this to this, in MW.
pub const NEED_LIMIT: i64 = 20_000;

/// No quantity of a bid, and no volume of a schedule or a meter, is larger than this, in MW.
pub const QUANTITY_LIMIT: i64 = 9_999;

/// No limit of a corridor is larger than this, in MW.
pub const CORRIDOR_LIMIT: i64 = 4_095;

/// The least quantity other than 0, in MW, of any bid but an ordinary one.
pub const LEAST_QUANTITY: i64 = 10;

/// The most participants that a list may have which is put to the clearing check.
pub const LIST_LIMIT: usize = 256;

/// The least quantity other than 0, in MW, of an ordinary bid of a zone: the same in every zone,
/// but asked by zone, since that is where a market lets smaller bids in.
#[tactic(auto, unfolding(crate::specs::Limits::least_ordinary))]
pub fn least_ordinary_quantity(zone: i64) -> i64
    ensures value { result ≡ least_ordinary zone }
    ensures number { result ≡ pos 10 }
{
    10
}

/// Whether a figure is 0 or at least the least quantity.
pub fn is_quantity(least: i64, figure: i64) -> bool
    ensures { result ≡ is_quantity least figure }
{
    figure == 0 || least <= figure
}
