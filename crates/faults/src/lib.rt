// Why a call says no: the faults of the three layers, and the refusal that each one tells.
//
// A layer that passes on what the layer below found wraps that fault whole (`From`, by `?`), so
// that number, layer and places stay what they were. A new case of a fault is one line in its
// enum, one in `refusal` and one in specs/Refusals.antt.
#![tactic(auto)]

ghost use Rattle.std.specs.Prelude.{◌≡◌};
ghost use Rattle.faults.specs.Refusals.{at, byte_refusal, clearing_refusal, layer_number, record_refusal, rule_number, sheet_refusal};
ghost use Rattle.faults.specs.declared.RecordFault.TheVariants.{Bytes};
ghost use Rattle.faults.specs.declared.SheetFault.TheVariants.{Clearing, Record};

use names::lists::ListName;
use names::numbered::Numbered;

/// The layer that found a fault.
#[derive(Clone, Copy, PartialEq, Eq, Debug)]
pub enum Layer {
    Bytes = 1,
    Records,
    Sheet,
}

impl Numbered for Layer {
    ghost number = { layer_number };

    fn number(self) -> u8 {
        self as u8
    }
}

impl Layer {
    // A refusal of the layer, at two places, 0 where none is named.
    fn refusal(self, number: u8, first: usize, second: usize) -> Refusal
        ensures { result ≡ at self number first second }
    {
        Refusal {
            number,
            layer: self,
            first: first as u64,
            second: second as u64,
        }
    }
}

/// What a fault tells whoever asked: its number, the layer that found it, and two places, 0 where
/// none is named. The faults are the enums below; the number is what is told of them.
#[derive(Clone, Copy, PartialEq, Eq, Debug)]
pub struct Refusal {
    pub number: u8,
    pub layer: Layer,
    pub first: u64,
    pub second: u64,
}

/// Bytes that are not there.
#[derive(Clone, Copy, PartialEq, Eq, Debug)]
pub enum ByteFault {
    /// Fewer than 16 bytes are left where a record should stand.
    Cut { position: usize },
}

/// Bytes that are there and are not the record that is asked for.
#[derive(Clone, Copy, PartialEq, Eq, Debug)]
pub enum RecordFault {
    /// What the bytes' layer said.
    Bytes(ByteFault),
    /// No kind has this number.
    UnknownKind { position: usize },
    /// The first field, counted from 1, whose figure is out of its range.
    OutOfRange { position: usize, field: usize },
    /// The bits behind the last field are not all zero.
    Padding { position: usize },
    /// A sound record, of a kind that is not asked for here.
    OtherKind { position: usize },
}

/// A clearing rule that is asked of each participant; the rule on needs is asked of each cell.
#[derive(Clone, Copy, PartialEq, Eq, Debug)]
pub enum ParticipantRule {
    /// Its schedule is lawful.
    Lawful = 21,
    /// If it is strict, it forgoes nothing.
    StrictForgoesNothing = 23,
    /// If it is lenient, its own surplus is not negative.
    LenientLosesNothing = 24,
}

/// Why the clearing check does not accept an outcome.
#[derive(Clone, Copy, PartialEq, Eq, Debug)]
pub enum ClearingFault {
    /// A list is too long, or has another number of schedules than of participants.
    Misfit {
        list: ListName,
    },
    /// The price of a cell is out of its range.
    PriceOutOfRange {
        zone: usize,
        quarter: usize,
    },
    /// A participant breaks a rule.
    Breach {
        rule: ParticipantRule,
        list: ListName,
        number: usize,
    },
    /// The effects in a cell do not add up to its need.
    Uncovered {
        zone: usize,
        quarter: usize,
    },
}

/// What a call on a sheet, or on a lent buffer, cannot do.
#[derive(Clone, Copy, PartialEq, Eq, Debug)]
pub enum SheetFault {
    /// What the records' layer said.
    Record(RecordFault),
    /// What the clearing check said.
    Clearing(ClearingFault),
    /// The lent buffer is too short.
    NoRoom,
}

// Each `From` is written out: tried, and the one that `thiserror` derives has no contract, and `?` has to pass
// the fault on whole.
impl From<ByteFault> for RecordFault {
    ghost from_gives = { λ x r. r ≡ Bytes x };

    fn from(below: ByteFault) -> RecordFault {
        RecordFault::Bytes(below)
    }
}

impl From<RecordFault> for SheetFault {
    ghost from_gives = { λ x r. r ≡ Record x };

    fn from(below: RecordFault) -> SheetFault {
        SheetFault::Record(below)
    }
}

impl From<ClearingFault> for SheetFault {
    ghost from_gives = { λ x r. r ≡ Clearing x };

    fn from(below: ClearingFault) -> SheetFault {
        SheetFault::Clearing(below)
    }
}

impl ByteFault {
    /// Tells number, layer and places.
    pub fn refusal(&self) -> Refusal
        ensures { result ≡ byte_refusal self.now }
    {
        match *self {
            ByteFault::Cut { position } => Layer::Bytes.refusal(2, position, 0),
        }
    }
}

impl RecordFault {
    /// Tells number, layer and places.
    pub fn refusal(&self) -> Refusal
        ensures { result ≡ record_refusal self.now }
    {
        match *self {
            RecordFault::Bytes(fault) => fault.refusal(),
            RecordFault::UnknownKind { position } => Layer::Records.refusal(3, position, 0),
            RecordFault::OutOfRange { position, field } => {
                Layer::Records.refusal(4, position, field)
            }
            RecordFault::Padding { position } => Layer::Records.refusal(5, position, 0),
            RecordFault::OtherKind { position } => Layer::Records.refusal(7, position, 0),
        }
    }
}

// A rule's number is that of the refusal where it is broken.
impl Numbered for ParticipantRule {
    ghost number = { rule_number };

    fn number(self) -> u8 {
        self as u8
    }
}

impl ClearingFault {
    /// Tells number, layer and places.
    pub fn refusal(&self) -> Refusal
        ensures { result ≡ clearing_refusal self.now }
    {
        match *self {
            ClearingFault::Misfit { list } => {
                Layer::Sheet.refusal(19, usize::from(list.number()), 0)
            }
            ClearingFault::PriceOutOfRange { zone, quarter } => {
                Layer::Sheet.refusal(20, zone, quarter)
            }
            ClearingFault::Breach { rule, list, number } => {
                Layer::Sheet.refusal(rule.number(), usize::from(list.number()), number)
            }
            ClearingFault::Uncovered { zone, quarter } => Layer::Sheet.refusal(22, zone, quarter),
        }
    }
}

impl SheetFault {
    /// Tells number, layer and places.
    pub fn refusal(&self) -> Refusal
        ensures { result ≡ sheet_refusal self.now }
    {
        match *self {
            SheetFault::Record(fault) => fault.refusal(),
            SheetFault::Clearing(fault) => fault.refusal(),
            SheetFault::NoRoom => Layer::Sheet.refusal(16, 0, 0),
        }
    }
}
