// Records and refusals in words that a service person understands: zones by name, prices in
// euros, MW.
#![tactic(auto)]

use faults::{ByteFault, RecordFault, Refusal};
use layout::kind::Kind;
use names::lists::{Direction, ListName, TotalName};
use names::numbered::Numbered;
use std::fmt;
use text::money::Money;
use values::value::{
    BidRecord, CorridorRecord, HeaderRecord, LineRecord, PricesRecord, Record, TotalRecord,
    VolumesRecord, ZoneRecord,
};

/// A zone by its name, where it has one.
#[derive(Clone, Copy)]
struct ZoneName(u8);

impl fmt::Display for ZoneName {
    fn fmt<W: fmt::Write>(&self, f: &mut fmt::Formatter<W>) -> fmt::Result {
        let zone = self.0;
        match zone {
            0..=4 => write!(f, "NO{}", zone + 1),
            _ => write!(f, "zone {zone}"),
        }
    }
}

/// A price of so many cents, in euros per MWh.
// Not by `Money`, which has four decimals: what it shows is proved of its own constants.
#[derive(Clone, Copy)]
struct Price(i64);

impl fmt::Display for Price {
    fn fmt<W: fmt::Write>(&self, f: &mut fmt::Formatter<W>) -> fmt::Result {
        let sign = if self.0 < 0 { "-" } else { "" };
        let euros = self.0.unsigned_abs() / 100;
        let cents = self.0.unsigned_abs() % 100;
        write!(f, "{sign}{euros}.{cents:02}")
    }
}

/// The figures of the four quarters, a space between.
#[derive(Clone, Copy)]
struct Quarters<T>([T; 4]);

impl<T: fmt::Display> fmt::Display for Quarters<T> {
    fn fmt<W: fmt::Write>(&self, f: &mut fmt::Formatter<W>) -> fmt::Result {
        f.write_joined(self.0.iter(), " ")
    }
}

/// A participant of a list.
#[derive(Clone, Copy)]
struct Participant(ListName, u16);

impl fmt::Display for Participant {
    fn fmt<W: fmt::Write>(&self, f: &mut fmt::Formatter<W>) -> fmt::Result {
        let Participant(list, number) = *self;
        let name = match list {
            ListName::Ordinary => "ordinary bid",
            ListName::Whole => "whole bid",
            ListName::Corridors => "corridor",
        };
        write!(f, "{name} {number}")
    }
}

// A case's name is given by a `match`, here and above and below: the enum is of another crate and
// can have no `Display` here, and a wrapper for each would say no less.
fn total_name(which: TotalName) -> &'static str {
    match which {
        TotalName::Cost => "cost",
        TotalName::ForgoneSurplus => "forgone surplus",
        TotalName::NeedsValue => "needs' value",
        TotalName::TopUps => "top-ups",
        TotalName::Payments => "payments",
        TotalName::CongestionIncome => "congestion income",
        TotalName::Deductions => "deductions",
    }
}

fn direction_name(direction: Direction) -> &'static str {
    match direction {
        Direction::Up => "up",
        Direction::Down => "down",
    }
}

fn kind_name(kind: Kind) -> &'static str {
    match kind {
        Kind::Zone => "zone",
        Kind::Ordinary => "ordinary bid",
        Kind::Whole => "whole bid",
        Kind::Corridor => "corridor",
        Kind::Withdrawal => "withdrawal",
        Kind::Prices => "price row",
        Kind::Schedule => "schedule",
        Kind::Meter => "meter record",
        Kind::Line => "statement line",
        Kind::Total => "total",
        Kind::Header => "header",
    }
}

/// How many records of a kind, in words.
#[derive(Clone, Copy)]
pub struct Count {
    pub records: u64,
    pub kind: Kind,
}

impl fmt::Display for Count {
    fn fmt<W: fmt::Write>(&self, f: &mut fmt::Formatter<W>) -> fmt::Result {
        let records = self.records;
        let kind = kind_name(self.kind);
        let ending = if records == 1 { "" } else { "s" };
        write!(f, "{records} {kind}{ending}")
    }
}

/// A record in words.
#[derive(Clone, Copy)]
pub struct InWords(pub Record);

impl fmt::Display for InWords {
    fn fmt<W: fmt::Write>(&self, f: &mut fmt::Formatter<W>) -> fmt::Result {
        match self.0 {
            Record::Blank => write!(f, "blank record"),
            Record::Zone(zone) => show_zone(f, zone),
            Record::Ordinary(bid) => show_bid(f, ListName::Ordinary, bid),
            Record::Whole(bid) => show_bid(f, ListName::Whole, bid),
            Record::Corridor(corridor) => show_corridor(f, corridor),
            Record::Withdrawal(withdrawal) => {
                let bid = Participant(withdrawal.list, withdrawal.number);
                write!(f, "withdrawal: {bid}")
            }
            Record::Prices(prices) => show_prices(f, prices),
            Record::Schedule(volumes) => show_volumes(f, "schedule", volumes),
            Record::Meter(volumes) => show_volumes(f, "meter record", volumes),
            Record::Line(line) => show_line(f, line),
            Record::Total(total) => show_total(f, total),
            Record::Header(header) => show_header(f, header),
        }
    }
}

fn show_zone<W: fmt::Write>(f: &mut fmt::Formatter<W>, zone: ZoneRecord) -> fmt::Result {
    let name = ZoneName(zone.zone);
    let price = Price(i64::from(zone.day_ahead_price));
    let needs = Quarters(zone.needs);
    write!(
        f,
        "zone: {name}, day-ahead price {price} EUR/MWh, needs {needs} MW"
    )
}

fn show_bid<W: fmt::Write>(
    f: &mut fmt::Formatter<W>,
    list: ListName,
    bid: BidRecord,
) -> fmt::Result {
    let name = Participant(list, bid.number);
    let zone = ZoneName(bid.zone);
    let direction = direction_name(bid.direction);
    let price = Price(i64::from(bid.half_euros) * 50);
    let group = bid.station_group;
    let quantities = Quarters(bid.quantities);
    write!(
        f,
        "{name}: {zone}, {direction}, {price} EUR/MWh, station group {group}, quantities {quantities} MW"
    )
}

fn show_corridor<W: fmt::Write>(
    f: &mut fmt::Formatter<W>,
    corridor: CorridorRecord,
) -> fmt::Result {
    let name = Participant(ListName::Corridors, corridor.number);
    let from = ZoneName(corridor.from_zone);
    let to = ZoneName(corridor.to_zone);
    let forward = Quarters(corridor.forward);
    let backward = Quarters(corridor.backward);
    write!(
        f,
        "{name}: from {from} to {to}, limits {forward} MW forward, {backward} MW backward"
    )
}

fn show_prices<W: fmt::Write>(f: &mut fmt::Formatter<W>, prices: PricesRecord) -> fmt::Result {
    let name = ZoneName(prices.zone);
    let prices = Quarters(prices.prices.map(|cents| Price(i64::from(cents))));
    write!(f, "price row: {name}, {prices} EUR/MWh")
}

fn show_volumes<W: fmt::Write>(
    f: &mut fmt::Formatter<W>,
    word: &str,
    volumes: VolumesRecord,
) -> fmt::Result {
    let name = Participant(volumes.list, volumes.number);
    let megawatts = Quarters(volumes.megawatts);
    write!(f, "{word}: {name}, {megawatts} MW")
}

fn show_line<W: fmt::Write>(f: &mut fmt::Formatter<W>, line: LineRecord) -> fmt::Result {
    let name = Participant(line.list, line.number);
    let payment = Money(line.payment);
    let deduction = Money(line.deduction);
    write!(
        f,
        "statement line: {name}, payment {payment} EUR, deduction {deduction} EUR"
    )
}

fn show_total<W: fmt::Write>(f: &mut fmt::Formatter<W>, total: TotalRecord) -> fmt::Result {
    let name = total_name(total.which);
    let value = Money(total.value);
    write!(f, "total: {name} {value} EUR")
}

fn show_header<W: fmt::Write>(f: &mut fmt::Formatter<W>, header: HeaderRecord) -> fmt::Result {
    let hour = header.hour;
    let rate = Price(i64::from(header.rate));
    let market = header.market_records;
    let proposal = header.proposal_records;
    let meter = header.meter_records;
    write!(
        f,
        "header: hour {hour}, deduction rate {rate} EUR/MWh, {market} market, {proposal} proposal and {meter} meter records"
    )
}

fn meaning(fault: RecordFault) -> &'static str {
    match fault {
        RecordFault::Bytes(ByteFault::Cut { .. }) => "the record is cut short",
        RecordFault::UnknownKind { .. } => "no record has this kind",
        RecordFault::OutOfRange { .. } => "a figure is out of its range",
        RecordFault::Padding { .. } => "the bits behind the last field are not zero",
        RecordFault::OtherKind { .. } => "another kind is wanted here",
    }
}

/// A refusal in words: number, layer and places, and what they mean.
#[derive(Clone, Copy)]
pub struct Refused(pub RecordFault);

impl fmt::Display for Refused {
    fn fmt<W: fmt::Write>(&self, f: &mut fmt::Formatter<W>) -> fmt::Result {
        let Refusal {
            number,
            layer,
            first,
            second,
        } = self.0.refusal();
        let layer = layer.number();
        let meaning = meaning(self.0);
        write!(
            f,
            "refused: number {number}, layer {layer}, record {first}, field {second}: {meaning}"
        )
    }
}
