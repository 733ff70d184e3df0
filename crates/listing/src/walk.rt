// The walk through a section, record by record.
ghost use Rattle.std.specs.Prelude.{◌≡◌, replicate};
ghost use Rattle.listing.specs.Walk.{Summed, summary_of};

use crate::summary::Summary;
use crate::tally::Tally;
use faults::RecordFault;
use records::reading::{Reader, record_at};
use std::fmt;
use words::InWords;

/// What a section holds up to its end or its first refusal.
pub fn summarise(section: &[u8]) -> Summary
    ensures { Summed section.now result }
{
    let mut reader = Reader::new(section);
    let mut tally = Tally::new();
    let fault = count_records(&mut reader, &mut tally).err();
    Summary {
        records: reader.position(),
        tally,
        fault,
    }
}

// Counts what a reader reads of a section, up to its end or its first refusal.
fn count_records(reader: &mut Reader, tally: &mut Tally) -> Result<(), RecordFault>
    requires first { reader.old.position ≡ 0 }
    requires none { tally.old.counts ≡ replicate 12 0 }
    ensures { Summed reader.old.section.now (summary_of reader.new.position tally.new result) }
{
    while let Some(record) = reader.next_record()? {
        if let Some(kind) = record.kind() {
            tally.note(kind);
        }
    }
    Ok(())
}

/// Adds a line to `lines` for each of the first records of a section: its position and its words.
pub fn write_lines(section: &[u8], records: usize, lines: &mut String) -> fmt::Result {
    // By position: a reader stays at a refusal, and the records behind it would get no line.
    for position in 0..records {
        if let Ok(Some(record)) = record_at(section, position) {
            write!(lines, "{position} {}\n", InWords(record))?;
        }
    }
    Ok(())
}
