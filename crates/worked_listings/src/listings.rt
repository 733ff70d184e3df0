// Listings: of a section that is refused, and of signs, names and amounts.
use listing::walk::{summarise, write_lines};
use std::alloc::Global;
use std::test::Fail;

// The lines of a section, and the last line, which sums them up.
fn listed(alloc: Global, section: &[u8]) -> Result<(String, String), Fail> {
    let summary = summarise(section);
    let mut lines = String::new(alloc);
    write_lines(section, summary.records, &mut lines)?;
    Ok((lines, summary.to_string(alloc)?))
}

#[test]
fn a_listing_stops_at_the_first_refusal(rt: HostRuntime) -> Result<(), Fail> {
    // withdraw ordinary 3; then a withdrawal from list 4, which has no bids
    let mut section = [0; 32];
    section[0..3].copy_from_slice(&[0x52, 0x00, 0xc0]);
    section[16..18].copy_from_slice(&[0x54, 0x00]);
    let (lines, last) = listed(rt.alloc(), &section)?;
    assert_eq!(rt; lines.as_str(), "0 withdrawal: ordinary bid 3\n");
    assert_eq!(rt;
        last.as_str(),
        "refused: number 4, layer 2, record 1, field 2: a figure is out of its range; before it 1 record: 1 withdrawal"
    );
    Ok(())
}

#[test]
fn a_listing_of_signs_and_names(rt: HostRuntime) -> Result<(), Fail> {
    let zone = 0x1b000000_0004e202_710a7100_00000000_u128.to_be_bytes();
    let whole = 0x30fe69c2_c0c80050_02800f00_50000000_u128.to_be_bytes();
    let line = 0x923fc000_7a120129_fe50e000_00000000_u128.to_be_bytes();
    let total = 0xa5ffffff_ffffffff_ff000000_00000000_u128.to_be_bytes();
    let section = [zone, whole, line, total];
    let (lines, last) = listed(rt.alloc(), section.as_flattened())?;
    assert_eq!(rt;
        lines.as_str(),
        "0 zone: zone 11, day-ahead price -10000.00 EUR/MWh, needs -20000 20000 1 0 MW\n\
         1 whole bid 63: zone 9, down, -5.00 EUR/MWh, station group 100, quantities 10 20 30 40 MW\n\
         2 statement line: ordinary bid 255, payment -99990000.0000 EUR, deduction 199980000.0000 EUR\n\
         3 total: payments -0.0025 EUR\n"
    );
    assert_eq!(rt;
        last.as_str(),
        "4 records: 1 zone, 1 whole bid, 1 statement line, 1 total"
    );
    Ok(())
}
