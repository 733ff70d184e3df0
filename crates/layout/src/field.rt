// A field of a record: how wide it is, and which figures it may hold.
ghost use Rattle.std.specs.Prelude.{◌≡◌, ◌^◌, ◌<◌, true};
ghost use Rattle.layout.specs.Fields.{admits, figure_of, keeps, names_bid_list, number_in, number_in_named, stored_as};
ghost use Rattle.layout.specs.Sound.{proper};

use limits::{LEAST_QUANTITY, is_quantity, least_ordinary_quantity};
use names::lists::{Direction, ListName, TotalName};
use names::numbered::FromNumber;

/// How many figures a record has at most.
pub const FIGURES: usize = 11;

/// The figures of the fields behind the kind, in their order, then zeros.
// A fixed array: the recorder has no heap.
pub type Figures = [i64; FIGURES];

// Where the figures stand that a rule for a later field looks at.
const LIST_AT: usize = 0;

const FROM_ZONE_AT: usize = 1;

const BID_ZONE_AT: usize = 1;

/// What a field asks of its figure besides the range; some rules look at an earlier figure.
#[derive(Clone, Copy, PartialEq, Eq, Debug)]
pub enum Rule {
    Within,
    NamesDirection,
    NamesTotal,
    NamesList,
    NamesBidList,
    /// A number of this list.
    NumberIn(ListName),
    /// A number of the list that the record names.
    NumberInNamedList,
    OtherThanFromZone,
    OrdinaryQuantity,
    Quantity,
}

/// A field of a record. The figure plus the offset stands in `width` bits.
#[derive(Clone, Copy, PartialEq, Eq, Debug)]
pub struct Field {
    pub width: u32,
    pub offset: i64,
    pub low: i64,
    pub high: i64,
    pub rule: Rule,
}

impl Rule {
    // Whether a figure keeps the rule in a record of these figures.
    fn keeps(self, figures: &Figures, figure: i64) -> bool
        ensures { result ≡ keeps self figures.now figure }
    {
        match self {
            Rule::Within => true,
            Rule::NamesDirection => Direction::from_number(figure).is_some(),
            Rule::NamesTotal => TotalName::from_number(figure).is_some(),
            Rule::NamesList => ListName::from_number(figure).is_some(),
            Rule::NamesBidList => names_bid_list(figure),
            Rule::NumberIn(list) => is_number_in(list, figure),
            Rule::NumberInNamedList => is_number_in_named(figures[LIST_AT], figure),
            Rule::OtherThanFromZone => figure != figures[FROM_ZONE_AT],
            Rule::OrdinaryQuantity => is_quantity(
                least_ordinary_quantity(figures[BID_ZONE_AT]),
                figure,
            ),
            Rule::Quantity => is_quantity(LEAST_QUANTITY, figure),
        }
    }
}

// Whether a figure is the number of a list of bids.
fn names_bid_list(figure: i64) -> bool
    ensures { result ≡ names_bid_list figure }
{
    ListName::from_number(figure).is_some_and(|list| list.has_bids())
}

// Whether a figure is a number of a list, from 0.
fn is_number_in(list: ListName, figure: i64) -> bool
    ensures { result ≡ number_in list figure }
{
    (0..i64::from(list.size())).contains(&figure)
}

// Whether a figure is a number of the list that another figure names.
fn is_number_in_named(list_figure: i64, figure: i64) -> bool
    ensures { result ≡ number_in_named list_figure figure }
{
    ListName::from_number(list_figure).is_some_and(|list| is_number_in(list, figure))
}

impl Field {
    /// Whether the field may hold a figure in a record of these figures.
    pub fn admits(self, figures: &Figures, figure: i64) -> bool
        ensures { result ≡ admits self figures.now figure }
    {
        // Two comparisons: with `contains` of a range the search for the proof gave up.
        self.low <= figure && figure <= self.high && self.rule.keeps(figures, figure)
    }

    // The figure that stored bits stand for.
    pub(crate) fn figure(self, stored: u64) -> i64
        requires proper { proper self ≡ true }
        requires narrow { stored < 2 ^ self.width }
        ensures { result ≡ figure_of self stored }
    {
        stored.cast_signed() - self.offset
    }

    // The bits that a figure is stored as.
    pub(crate) fn stored(self, figures: &Figures, figure: i64) -> u64
        requires proper { proper self ≡ true }
        requires admitted { admits self figures.now figure ≡ true }
        ensures value { result ≡ stored_as self figure }
        ensures narrow { result < 2 ^ self.width }
    {
        (figure + self.offset).cast_unsigned()
    }
}
