// The values that records hold. A value may be out of a record's range: writing says so.
ghost use Rattle.std.specs.Prelude.{◌≡◌};
ghost use Rattle.layout.specs.Layout.{fields_of};
ghost use Rattle.layout.specs.Packing.{filled};
ghost use Rattle.values.specs.Bounds.{Bounded};
ghost use Rattle.values.specs.Values.{Shaped, figures_of, kind_of, record_of, record_or_field};

use crate::record_value::RecordValue;
use layout::field::{FIGURES, Figures};
use layout::kind::Kind;
use layout::packing::{OutOfRange, first_out_of_range};
use names::lists::{Direction, ListName, TotalName};

/// A zone's day-ahead price, in cents per MWh, and its needs of the four quarters, in MW.
#[derive(Clone, Copy, PartialEq, Eq, Debug)]
pub struct ZoneRecord {
    pub zone: u8,
    pub day_ahead_price: i32,
    pub needs: [i32; 4],
}

/// What ordinary and whole bids have alike. The price is in half euros per MWh.
#[derive(Clone, Copy, PartialEq, Eq, Debug)]
pub struct BidRecord {
    pub number: u16,
    pub zone: u8,
    pub direction: Direction,
    pub half_euros: i32,
    pub station_group: u16,
    pub quantities: [u16; 4],
}

/// A corridor's zones and its limits of the four quarters, in MW, forward from the from-zone to
/// the to-zone.
#[derive(Clone, Copy, PartialEq, Eq, Debug)]
pub struct CorridorRecord {
    pub number: u16,
    pub from_zone: u8,
    pub to_zone: u8,
    pub forward: [u16; 4],
    pub backward: [u16; 4],
}

/// The bid that is to be taken off the book.
#[derive(Clone, Copy, PartialEq, Eq, Debug)]
pub struct WithdrawalRecord {
    pub list: ListName,
    pub number: u16,
}

/// A zone's clearing prices of the four quarters, in cents per MWh.
#[derive(Clone, Copy, PartialEq, Eq, Debug)]
pub struct PricesRecord {
    pub zone: u8,
    pub prices: [i32; 4],
}

/// A participant's MW of the four quarters: scheduled, or metered.
#[derive(Clone, Copy, PartialEq, Eq, Debug)]
pub struct VolumesRecord {
    pub list: ListName,
    pub number: u16,
    pub megawatts: [i32; 4],
}

/// A line of the statement, in money units of a quarter of a cent.
#[derive(Clone, Copy, PartialEq, Eq, Debug)]
pub struct LineRecord {
    pub list: ListName,
    pub number: u16,
    pub payment: i64,
    pub deduction: i64,
}

/// A total of the statement, in money units of a quarter of a cent.
#[derive(Clone, Copy, PartialEq, Eq, Debug)]
pub struct TotalRecord {
    pub which: TotalName,
    pub value: i64,
}

/// The head of a packed hour: the hour's number, the deduction rate in cents per MWh, and how
/// many records each of the three sections behind it has.
#[derive(Clone, Copy, PartialEq, Eq, Debug)]
pub struct HeaderRecord {
    pub hour: u32,
    pub rate: u32,
    pub market_records: u16,
    pub proposal_records: u16,
    pub meter_records: u16,
}

/// A record's value. The blank one, of kind 0, fills fresh arrays: reading never gives it.
// It stays a case of its own, and no `Option` around the rest: writing takes any `Record` and
// refuses this one as of an unknown kind.
#[derive(Clone, Copy, PartialEq, Eq, Debug)]
pub enum Record {
    Blank,
    Zone(ZoneRecord),
    Ordinary(BidRecord),
    Whole(BidRecord),
    Corridor(CorridorRecord),
    Withdrawal(WithdrawalRecord),
    Prices(PricesRecord),
    Schedule(VolumesRecord),
    Meter(VolumesRecord),
    Line(LineRecord),
    Total(TotalRecord),
    Header(HeaderRecord),
}

impl Record {
    /// The kind of the record; none of the blank one.
    pub fn kind(&self) -> Option<Kind>
        ensures { result ≡ kind_of self.now }
    {
        match self {
            Record::Blank => None,
            Record::Zone(_) => Some(Kind::Zone),
            Record::Ordinary(_) => Some(Kind::Ordinary),
            Record::Whole(_) => Some(Kind::Whole),
            Record::Corridor(_) => Some(Kind::Corridor),
            Record::Withdrawal(_) => Some(Kind::Withdrawal),
            Record::Prices(_) => Some(Kind::Prices),
            Record::Schedule(_) => Some(Kind::Schedule),
            Record::Meter(_) => Some(Kind::Meter),
            Record::Line(_) => Some(Kind::Line),
            Record::Total(_) => Some(Kind::Total),
            Record::Header(_) => Some(Kind::Header),
        }
    }

    /// The figures of the fields behind the kind, in their order, then zeros.
    pub fn figures(&self) -> Figures
        ensures value { result ≡ filled (figures_of self.now) }
        ensures shape { Shaped self.now }
    {
        match self {
            Record::Blank => [0; FIGURES],
            Record::Zone(zone) => zone.figures(),
            Record::Ordinary(bid) | Record::Whole(bid) => bid.figures(),
            Record::Corridor(corridor) => corridor.figures(),
            Record::Withdrawal(withdrawal) => withdrawal.figures(),
            Record::Prices(prices) => prices.figures(),
            Record::Schedule(volumes) | Record::Meter(volumes) => volumes.figures(),
            Record::Line(line) => line.figures(),
            Record::Total(total) => total.figures(),
            Record::Header(header) => header.figures(),
        }
    }

    /// The record of a kind that has these figures, or the first field whose figure is out of
    /// its range.
    pub fn from_figures(kind: Kind, figures: &Figures) -> Result<Record, OutOfRange>
        ensures { result ≡ record_or_field kind figures.now }
    {
        // A `match`: a closure for the record would have to ask again that every field is in range.
        match first_out_of_range(kind, figures) {
            Some(field) => Err(OutOfRange { field }),
            None => Ok(Record::of_bounded(kind, figures)),
        }
    }

    fn of_bounded(kind: Kind, figures: &Figures) -> Record
        requires { Bounded (fields_of kind) 0 figures.now }
        ensures { result ≡ record_of kind figures.now }
    {
        match kind {
            Kind::Zone => Record::Zone(ZoneRecord::from_figures(figures)),
            Kind::Ordinary => Record::Ordinary(BidRecord::from_figures(figures)),
            Kind::Whole => Record::Whole(BidRecord::from_figures(figures)),
            Kind::Corridor => Record::Corridor(CorridorRecord::from_figures(figures)),
            Kind::Withdrawal => Record::Withdrawal(WithdrawalRecord::from_figures(figures)),
            Kind::Prices => Record::Prices(PricesRecord::from_figures(figures)),
            Kind::Schedule => Record::Schedule(VolumesRecord::from_figures(figures)),
            Kind::Meter => Record::Meter(VolumesRecord::from_figures(figures)),
            Kind::Line => Record::Line(LineRecord::from_figures(figures)),
            Kind::Total => Record::Total(TotalRecord::from_figures(figures)),
            Kind::Header => Record::Header(HeaderRecord::from_figures(figures)),
        }
    }
}
