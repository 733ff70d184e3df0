// Text lines of a statement.
use names::lists::{ListName, TotalName};
use std::process::Abort;
use std::test::Fail;
use text::lines::write_text;
use values::value::{LineRecord, Record, TotalRecord};

fn check_text(rt: &impl Abort, value: &Record, text: &[u8]) -> Result<(), Fail> {
    let mut buffer = [b'#'; 64];
    let length = write_text(value, &mut buffer)?;
    assert!(rt; length < 64);
    assert_eq!(rt; &buffer[0..length], text);
    assert_eq!(rt; buffer[length], b'#');
    Ok(())
}

fn total(value: i64) -> Record {
    Record::Total(TotalRecord {
        which: TotalName::CongestionIncome,
        value,
    })
}

#[test]
fn totals(rt: HostRuntime) -> Result<(), Fail> {
    check_text(&rt, &total(0), b"total 6 0.0000\n")?;
    check_text(&rt, &total(-1), b"total 6 -0.0025\n")?;
    check_text(&rt, &total(163_000), b"total 6 407.5000\n")?;
    check_text(&rt, &total(i64::MIN), b"total 6 -23058430092136939.5200\n")?;
    check_text(&rt, &total(i64::MAX), b"total 6 23058430092136939.5175\n")
}

#[test]
fn bid_lines(rt: HostRuntime) -> Result<(), Fail> {
    let line = Record::Line(LineRecord {
        list: ListName::Whole,
        number: 63,
        payment: -39_996_000_000,
        deduction: 22_500,
    });
    check_text(&rt, &line, b"bid 3 63 -99990000.0000 56.2500\n")?;
    let mut short = [0; 63];
    assert!(rt; write_text(&line, &mut short).is_err());
    assert!(rt; write_text(&Record::Blank, &mut short).is_err());
    Ok(())
}
