// A cell is one zone in one quarter. Prices and needs have a figure for each cell.
ghost use Rattle.std.specs.Prelude.{◌≡◌, ℕ, Bool};
ghost use Rattle.limits.specs.Limits.{price_limit};
ghost use Rattle.market.specs.Tests.{Tells, Within, within};
ghost use Rattle.market.specs.Cells.{EveryCellOrFirst, InRange, Answers, first_cell, first_in_zone, in_range, is_cell, price_fits, table};

use limits::{PRICE_LIMIT, QUARTERS, ZONES};

/// A zone in a quarter. All numbers are admitted: past the last zone or quarter there is no cell.
#[derive(Clone, Copy, PartialEq, Eq, Debug)]
pub struct Cell {
    pub zone: usize,
    pub quarter: usize,
}

impl Cell {
    /// Whether there is such a cell.
    pub fn exists(self) -> bool
        ensures { result ≡ is_cell self.zone self.quarter }
    {
        self.zone < ZONES && self.quarter < QUARTERS
    }
}

/// A figure for each zone and quarter.
pub type CellTable = [[i32; QUARTERS]; ZONES];

// The figure of a cell; 0 where there is no such cell. `Needs::at` and `Prices::at` are a line each
// over it: a trait with one `at` for both needs that line in each impl, and one in each caller.
fn figure_at(figures: &CellTable, cell: Cell) -> i32
    ensures { result ≡ table figures.now cell.zone cell.quarter }
{
    if cell.exists() {
        figures[cell.zone][cell.quarter]
    } else {
        0
    }
}

/// A price for each cell, in cents per MWh.
#[derive(Clone, Copy, PartialEq, Eq, Debug)]
pub struct Prices {
    pub cents: CellTable,
}

/// A need for each cell, in MW: more power where it is positive, less where it is negative.
#[derive(Clone, Copy, PartialEq, Eq, Debug)]
pub struct Needs {
    pub megawatts: CellTable,
}

impl Needs {
    /// The need of a cell; 0 where there is no such cell.
    pub fn at(&self, cell: Cell) -> i32
        ensures { result ≡ table self.now.megawatts cell.zone cell.quarter }
    {
        figure_at(&self.megawatts, cell)
    }
}

impl Prices {
    /// The price of a cell; 0 where there is no such cell.
    pub fn at(&self, cell: Cell) -> i32
        ensures { result ≡ table self.now.cents cell.zone cell.quarter }
    {
        figure_at(&self.cents, cell)
    }

    /// The first cell, by zone and then by quarter, whose price is out of its range.
    pub fn first_out_of_range(&self) -> Option<Cell>
        ensures answer { result ≡ first_cell (price_fits (table self.now.cents)) }
        ensures first { EveryCellOrFirst (λ z q. Within price_limit (table self.now.cents z q)) result }
    {
        first_failing(|cell| is_price(self.at(cell)))
    }

    /// Whether every price is in its range.
    pub fn in_range(&self) -> bool
        ensures answer { result ≡ in_range (table self.now.cents) }
        ensures tells { Tells result (InRange (table self.now.cents)) }
    {
        self.first_out_of_range().is_none()
    }
}

/// The first cell, by zone and then by quarter, that fails a test.
pub fn first_failing<F: Fn(Cell) -> bool>(test: F) -> Option<Cell>
    requires { F.IsAlwaysCallable test }
    ensures { (t : ℕ → ℕ → Bool) → Answers (F.post test) t → result ≡ first_cell t }
{
    (0..ZONES).find_map(|zone| first_failing_in(&test, zone))
}

// The first cell of a zone that fails a test.
fn first_failing_in<F: Fn(Cell) -> bool>(test: &F, zone: usize) -> Option<Cell>
    requires { F.IsAlwaysCallable test.now }
    ensures { (t : ℕ → ℕ → Bool) → Answers (F.post test.now) t → result ≡ first_in_zone t zone }
{
    (0..QUARTERS)
        .find(|quarter| {
            !test(Cell {
                zone,
                quarter: *quarter,
            })
        })
        .map(|quarter| Cell { zone, quarter })
}

// Whether a number of cents is in the range of prices.
fn is_price(cents: i32) -> bool
    ensures { result ≡ within price_limit cents }
{
    (-PRICE_LIMIT..=PRICE_LIMIT).contains(&i64::from(cents))
}
