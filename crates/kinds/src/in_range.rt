// Prices that are known to be in range.
ghost use Rattle.std.specs.Prelude.{◌≡◌, IfSome, is_some, true};
ghost use Rattle.limits.specs.Limits.{price_limit};
ghost use Rattle.market.specs.Cells.{in_range, table};
ghost use Rattle.market.specs.Tests.{Within};

use market::cells::{Cell, Prices};

/// Prices of which every one is in its range.
#[derive(Clone, Copy)]
pub struct PricesInRange<'a> {
    prices: &'a Prices,
    ghost in_range: { in_range (table prices.now.cents) ≡ true },
}

impl<'a> PricesInRange<'a> {
    // These prices, where every one is in its range.
    pub(crate) fn new(prices: &'a Prices) -> Option<PricesInRange<'a>>
        ensures found { is_some result ≡ in_range (table prices.now.cents) }
        ensures same { IfSome result (λ it. it.prices.now ≡ prices.now) }
    {
        // With `then` the closure would have to state the invariant in a clause of its own.
        if prices.in_range() {
            Some(PricesInRange { prices })
        } else {
            None
        }
    }

    // The price of a cell; 0 where there is no such cell.
    pub(crate) fn at(&self, cell: Cell) -> i32
        ensures value { result ≡ table self.now.prices.now.cents cell.zone cell.quarter }
        ensures within { Within price_limit result }
    {
        self.prices.at(cell)
    }
}
