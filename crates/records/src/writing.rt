// Writing a record into a lent buffer.
ghost use Rattle.std.specs.Prelude.{◌≡◌, ◌≤◌, ◌++◌, length, drop};
ghost use Rattle.std.specs.Int.{to_be_bytes, w128};
ghost use Rattle.faults.specs.Refusals.{record_refusal, sheet_refusal, told};
ghost use Rattle.values.specs.Values.{Shaped};
ghost use Rattle.records.specs.Writing.{Encodable, Encoded, Worded, checked, writing, written};

use crate::RECORD;
use faults::{RecordFault, SheetFault};
use layout::packing::word_of;
use values::value::Record;

/// Whether a record can hold the value: it is not blank, and each figure is in its range.
pub fn check(value: &Record) -> Result<(), RecordFault>
    ensures answer { told record_refusal result ≡ checked value.now }
    ensures encodable { Encodable value.now result }
{
    word_of_value(value)?;
    Ok(())
}

/// Writes a record into the first 16 bytes of a buffer; a refusal leaves the buffer as it was.
pub fn write(value: &Record, buffer: &mut [u8]) -> Result<(), SheetFault>
    ensures answer { told sheet_refusal result ≡ writing value.now (length buffer.old) }
    ensures buffer { buffer.new ≡ written value.now buffer.old result }
    ensures encoded { Encoded value.now buffer.old buffer.new result }
{
    let word = word_of_value(value)?;
    if buffer.len() < RECORD {
        return Err(SheetFault::NoRoom);
    }
    put_word(buffer, word);
    Ok(())
}

// Puts a word into the first bytes of a buffer, the highest byte first.
fn put_word(buffer: &mut [u8], word: u128)
    requires { 16 ≤ length buffer.old }
    ensures { buffer.new ≡ to_be_bytes w128 word ++ drop 16 buffer.old }
{
    buffer[0..RECORD].copy_from_slice(&word.to_be_bytes());
}

// The word that holds a value.
fn word_of_value(value: &Record) -> Result<u128, RecordFault>
    ensures word { Worded value.now result }
    ensures shape { Shaped value.now }
{
    let figures = value.figures();
    let kind = value
        .kind()
        .ok_or(RecordFault::UnknownKind { position: 0 })?;
    word_of(kind, &figures).map_err(|out| RecordFault::OutOfRange {
        position: 0,
        field: out.field,
    })
}
