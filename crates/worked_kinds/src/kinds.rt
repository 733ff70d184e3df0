// A record of each kind: its bytes are read as the named figures, and these are written as those
// bytes. Neighbouring figures differ, so that none can stand in for another.
use names::lists::{Direction, ListName, TotalName};
use records::reading::first_record;
use records::writing::write;
use std::process::Abort;
use std::test::Fail;
use values::value::{
    BidRecord, CorridorRecord, HeaderRecord, LineRecord, PricesRecord, Record, TotalRecord,
    VolumesRecord, WithdrawalRecord, ZoneRecord,
};

// The bytes of a word encode a record: they are read as it, and it is written as them.
fn check(rt: &impl Abort, word: u128, record: Record) -> Result<(), Fail> {
    let bytes = word.to_be_bytes();
    assert_eq!(rt; first_record(&bytes)?, record);
    let mut written = [0; 16];
    write(&record, &mut written)?;
    assert_eq!(rt; written, bytes);
    Ok(())
}

// zone 0 price -5.00 needs 50 -30 0 -1
#[test]
fn zone(rt: HostRuntime) -> Result<(), Fail> {
    let zone = ZoneRecord {
        zone: 0,
        day_ahead_price: -500,
        needs: [50, -30, 0, -1],
    };
    check(
        &rt,
        0x107a0262_72927012_710270f8_00000000,
        Record::Zone(zone),
    )
}

// ordinary 0 zone 1 up price 29.50 group 5 quantities 40 0 10 9999
#[test]
fn ordinary_bid(rt: HostRuntime) -> Result<(), Fail> {
    let bid = BidRecord {
        number: 0,
        zone: 1,
        direction: Direction::Up,
        half_euros: 59,
        station_group: 5,
        quantities: [40, 0, 10, 9999],
    };
    check(
        &rt,
        0x200049cb_600a0140_0000054e_1e000000,
        Record::Ordinary(bid),
    )
}

// whole 63 zone 9 down price -5.00 group 100 quantities 10 20 30 40
#[test]
fn whole_bid(rt: HostRuntime) -> Result<(), Fail> {
    let bid = BidRecord {
        number: 63,
        zone: 9,
        direction: Direction::Down,
        half_euros: -10,
        station_group: 100,
        quantities: [10, 20, 30, 40],
    };
    check(
        &rt,
        0x30fe69c2_c0c80050_02800f00_50000000,
        Record::Whole(bid),
    )
}

// corridor 31 from 11 to 10 forward 4095 0 1 2048 backward 1 2 3 4095
#[test]
fn corridor(rt: HostRuntime) -> Result<(), Fail> {
    let corridor = CorridorRecord {
        number: 31,
        from_zone: 11,
        to_zone: 10,
        forward: [4095, 0, 1, 2048],
        backward: [1, 2, 3, 4095],
    };
    check(
        &rt,
        0x4fdd7ff8_00000c00_00080100_1fff8000,
        Record::Corridor(corridor),
    )
}

// withdraw whole 63
#[test]
fn withdrawal(rt: HostRuntime) -> Result<(), Fail> {
    let withdrawal = WithdrawalRecord {
        list: ListName::Whole,
        number: 63,
    };
    check(
        &rt,
        0x530fc000_00000000_00000000_00000000,
        Record::Withdrawal(withdrawal),
    )
}

// prices 11 -10000.00 10000.00 -0.01 28.37
#[test]
fn prices(rt: HostRuntime) -> Result<(), Fail> {
    let prices = PricesRecord {
        zone: 11,
        prices: [-1_000_000, 1_000_000, -1, 2837],
    };
    check(
        &rt,
        0x6b000007_a1201e84_7ef4d550_00000000,
        Record::Prices(prices),
    )
}

// schedule corridor 31 -1 0 1 9999
#[test]
fn schedule(rt: HostRuntime) -> Result<(), Fail> {
    let schedule = VolumesRecord {
        list: ListName::Corridors,
        number: 31,
        megawatts: [-1, 0, 1, 9999],
    };
    check(
        &rt,
        0x7407d387_a7104e23_387c0000_00000000,
        Record::Schedule(schedule),
    )
}

// meter ordinary 255 -9999 9999 0 -1
#[test]
fn meter(rt: HostRuntime) -> Result<(), Fail> {
    let meter = VolumesRecord {
        list: ListName::Ordinary,
        number: 255,
        megawatts: [-9999, 9999, 0, -1],
    };
    check(
        &rt,
        0x823fc000_ce1f4e20_9c3c0000_00000000,
        Record::Meter(meter),
    )
}

// line ordinary 255 payment -99990000.0000 deduction 199980000.0000
#[test]
fn line(rt: HostRuntime) -> Result<(), Fail> {
    let line = LineRecord {
        list: ListName::Ordinary,
        number: 255,
        payment: -39_996_000_000,
        deduction: 79_992_000_000,
    };
    check(
        &rt,
        0x923fc000_7a120129_fe50e000_00000000,
        Record::Line(line),
    )
}

// total 1 -23058430092136939.5200
#[test]
fn total(rt: HostRuntime) -> Result<(), Fail> {
    let total = TotalRecord {
        which: TotalName::Cost,
        value: i64::MIN,
    };
    check(
        &rt,
        0xa1800000_00000000_00000000_00000000,
        Record::Total(total),
    )
}

// header hour 4294967295 rate 10000.00 market 4095 proposal 512 meter 4094
#[test]
fn header(rt: HostRuntime) -> Result<(), Fail> {
    let header = HeaderRecord {
        hour: 4_294_967_295,
        rate: 1_000_000,
        market_records: 4095,
        proposal_records: 512,
        meter_records: 4094,
    };
    check(
        &rt,
        0xbfffffff_ff4240ff_f200ffe0_00000000,
        Record::Header(header),
    )
}
