// The kinds of record, their numbers and their fields.
ghost use Rattle.std.specs.Prelude.{◌≡◌};
ghost use Rattle.layout.specs.Cases.{kind_found};
ghost use Rattle.layout.specs.Layout.{fields_of, kind_number, kinds};

use crate::field::Field;
use crate::fields::Fields;
use crate::table;
use names::numbered::{FromNumber, Numbered};

/// A kind of record.
#[derive(Clone, Copy, PartialEq, Eq, Debug)]
pub enum Kind {
    Zone = 1,
    Ordinary,
    Whole,
    Corridor,
    Withdrawal,
    Prices,
    Schedule,
    Meter,
    Line,
    Total,
    Header,
}

const KINDS: [Kind; 11] = [
    Kind::Zone,
    Kind::Ordinary,
    Kind::Whole,
    Kind::Corridor,
    Kind::Withdrawal,
    Kind::Prices,
    Kind::Schedule,
    Kind::Meter,
    Kind::Line,
    Kind::Total,
    Kind::Header,
];

impl Numbered for Kind {
    ghost number = { kind_number };

    fn number(self) -> u8 {
        self as u8
    }
}

impl FromNumber for Kind {
    ghost cases = { kinds };

    ghost found = { kind_found };

    fn cases() -> &'static [Kind] {
        &KINDS
    }
}

impl Kind {
    /// The fields behind the kind, in their order.
    pub fn fields(self) -> Fields
        ensures { result.list.now ≡ fields_of self }
    {
        Fields {
            list: self.listed(),
        }
    }

    // The table's fields of the kind.
    fn listed(self) -> &'static [Field]
        ensures { result.now ≡ fields_of self }
    {
        match self {
            Kind::Zone => &table::ZONE_FIELDS,
            Kind::Ordinary => &table::ORDINARY_FIELDS,
            Kind::Whole => &table::WHOLE_FIELDS,
            Kind::Corridor => &table::CORRIDOR_FIELDS,
            Kind::Withdrawal => &table::WITHDRAWAL_FIELDS,
            Kind::Prices => &table::PRICES_FIELDS,
            Kind::Schedule => &table::SCHEDULE_FIELDS,
            Kind::Meter => &table::METER_FIELDS,
            Kind::Line => &table::LINE_FIELDS,
            Kind::Total => &table::TOTAL_FIELDS,
            Kind::Header => &table::HEADER_FIELDS,
        }
    }
}
