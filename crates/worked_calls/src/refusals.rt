// Refusals by number, layer and places, and what they leave.
use faults::Layer::{Bytes, Records, Sheet};
use faults::{Layer, Refusal};
use names::lists::ListName;
use names::numbered::Numbered;
use records::reading::{Reader, first_record};
use records::writing::write;
use std::process::Abort;
use std::test::Fail;
use values::value::{Record, VolumesRecord};

// ordinary 0 zone 1 up price 29.00 group 5 quantities 40 40 40 40
fn bid() -> [u8; 16] {
    0x200049cb_400a0140_05001400_50000000_u128.to_be_bytes()
}

fn refusal(number: u8, layer: Layer, first: u64, second: u64) -> Refusal {
    Refusal {
        number,
        layer,
        first,
        second,
    }
}

// What a call refused.
fn refused<T: Drop>(answer: Result<T, Refusal>) -> Result<Refusal, Fail> {
    answer.err().ok_or_else(|| Fail::new("nothing was refused"))
}

fn refused_read(section: &[u8]) -> Result<Refusal, Fail> {
    refused(first_record(section).map_err(|fault| fault.refusal()))
}

fn refused_write(value: &Record, buffer: &mut [u8]) -> Result<Refusal, Fail> {
    refused(write(value, buffer).map_err(|fault| fault.refusal()))
}

// The refusal of a bid's bytes with one byte changed.
fn refused_with(rt: &impl Abort, at: usize, byte: u8) -> Result<Refusal, Fail> {
    let mut bytes = bid();
    assert!(rt; at < 16);
    bytes[at] = byte;
    refused_read(&bytes)
}

#[test]
fn reading_refuses_in_order(rt: HostRuntime) -> Result<(), Fail> {
    assert_eq!(rt; refused_read(&[])?, refusal(2, Bytes, 0, 0));
    assert_eq!(rt; refused_read(&bid()[0..15])?, refusal(2, Bytes, 0, 0));
    assert_eq!(rt; refused_with(&rt, 0, 0x00)?, refusal(3, Records, 0, 0));
    assert_eq!(rt; refused_with(&rt, 0, 0xc0)?, refusal(3, Records, 0, 0));
    // Number 256, zone 13, a price above 10,000 EUR, a fourth quantity of 9 MW.
    assert_eq!(rt; refused_with(&rt, 0, 0x24)?, refusal(4, Records, 0, 2));
    assert_eq!(rt; refused_with(&rt, 1, 0x03)?, refusal(4, Records, 0, 3));
    assert_eq!(rt; refused_with(&rt, 2, 0x73)?, refusal(4, Records, 0, 5));
    assert_eq!(rt; refused_with(&rt, 12, 0x12)?, refusal(4, Records, 0, 10));
    assert_eq!(rt; refused_with(&rt, 15, 1)?, refusal(5, Records, 0, 0));
    Ok(())
}

// The layer that a refusal tells is a number where it is told: 1 bytes, 2 records, 3 sheet.
#[test]
fn each_layer_is_told_by_its_number(rt: HostRuntime) -> Result<(), Fail> {
    let mut short = [7; 15];
    let meter = Record::Meter(VolumesRecord {
        list: ListName::Whole,
        number: 40,
        megawatts: [0; 4],
    });
    assert_eq!(rt; refused_read(&[])?.layer.number(), 1);
    assert_eq!(rt; refused_with(&rt, 15, 1)?.layer.number(), 2);
    assert_eq!(rt; refused_write(&meter, &mut short)?.layer.number(), 3);
    Ok(())
}

#[test]
fn a_reader_stays_at_the_end(rt: HostRuntime) -> Result<(), Fail> {
    let section = bid();
    let mut reader = Reader::new(&section);
    assert!(rt; reader.next_record()?.is_some());
    assert!(rt; reader.next_record()?.is_none());
    assert!(rt; reader.next_record()?.is_none());
    assert_eq!(rt; reader.position(), 1);
    Ok(())
}

#[test]
fn a_reader_stays_at_a_refusal(rt: HostRuntime) -> Result<(), Fail> {
    let section = [bid().as_slice(), &[0x20, 0, 0]].concat(rt.alloc())?;
    let mut reader = Reader::new(section.as_slice());
    assert!(rt; reader.next_record()?.is_some());
    let cut = reader.next_record().map_err(|fault| fault.refusal());
    assert_eq!(rt; refused(cut)?, refusal(2, Bytes, 1, 0));
    assert_eq!(rt; reader.position(), 1);
    // Bytes behind the first record do not matter to it.
    assert!(rt; first_record(section.as_slice()).is_ok());
    Ok(())
}

#[test]
fn writing_refuses_in_order(rt: HostRuntime) -> Result<(), Fail> {
    let corridor = Record::Meter(VolumesRecord {
        list: ListName::Corridors,
        number: 40,
        megawatts: [0, 0, 0, 10_000],
    });
    let meter = Record::Meter(VolumesRecord {
        list: ListName::Whole,
        number: 40,
        megawatts: [0, 0, 0, 9_999],
    });
    let mut short = [7; 15];
    assert_eq!(rt;
        refused_write(&Record::Blank, &mut short)?,
        refusal(3, Records, 0, 0)
    );
    assert_eq!(rt;
        refused_write(&corridor, &mut short)?,
        refusal(4, Records, 0, 2)
    );
    assert_eq!(rt;
        refused_write(&meter, &mut short)?,
        refusal(16, Sheet, 0, 0)
    );
    assert_eq!(rt; short, [7; 15]);
    let mut room = [7; 18];
    write(&meter, &mut room)?;
    assert_eq!(rt; &room[16..18], [7, 7].as_slice());
    Ok(())
}
