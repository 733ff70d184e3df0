// Reading records from a lent section of bytes.
ghost use Rattle.std.specs.Prelude.{◌≡◌, ◌%◌, ◌^◌, ◌==◌};
ghost use Rattle.faults.specs.Refusals.{byte_refusal, record_refusal, told};
ghost use Rattle.layout.specs.Packing.{padding};
ghost use Rattle.records.specs.Reading.{ExactFirst, Exactly, advanced, first_record, if_padded, read_at, read_word, word_at};

use crate::RECORD;
use faults::{ByteFault, RecordFault};
use layout::kind::Kind;
use layout::packing::{FIELD_BITS, figures_in, has_zero_padding};
use names::numbered::FromNumber;
use values::value::Record;

/// Reads a section record by record.
// It is no `Iterator`: a refusal leaves it where it was, so a loop over one would not end there.
#[derive(Drop)]
pub struct Reader<'a> {
    section: &'a [u8],
    position: usize,
}

impl<'a> Reader<'a> {
    /// A reader before the first record of a section.
    pub fn new(section: &'a [u8]) -> Reader<'a>
        ensures section { result.section.now ≡ section.now }
        ensures position { result.position ≡ 0 }
    {
        Reader {
            section,
            position: 0,
        }
    }

    /// How many records have been read: the position of the next one.
    pub fn position(&self) -> usize
        ensures { result ≡ self.now.position }
    {
        self.position
    }

    /// The next record, or none at the end. A refusal, or the end, leaves the reader where it was.
    pub fn next_record(&mut self) -> Result<Option<Record>, RecordFault>
        ensures answer { told record_refusal result ≡ read_at self.old.section.now self.old.position }
        ensures exact { Exactly self.old.section.now self.old.position result }
        ensures position { self.new.position ≡ advanced self.old.position result }
        ensures section { self.new.section.now ≡ self.old.section.now }
    {
        let answer = record_at(self.section, self.position);
        if let Ok(Some(_)) = answer {
            self.position += 1;
        }
        answer
    }
}

/// The record at a position of a section, or none at or past the end.
pub fn record_at(section: &[u8], position: usize) -> Result<Option<Record>, RecordFault>
    ensures answer { told record_refusal result ≡ read_at section.now position }
    ensures exact { Exactly section.now position result }
{
    word_at(section, position)?
        .map(|word| from_word(position, word))
        .transpose()
}

/// The first record of a section; bytes behind it do not matter.
pub fn first_record(section: &[u8]) -> Result<Record, RecordFault>
    ensures answer { told record_refusal result ≡ first_record section.now }
    ensures exact { ExactFirst section.now result }
{
    let word = word_at(section, 0)?.ok_or(ByteFault::Cut { position: 0 })?;
    from_word(0, word)
}

// The bytes of the record at a position, as one number, the first byte highest; none at the end.
fn word_at(section: &[u8], position: usize) -> Result<Option<u128>, ByteFault>
    ensures { told byte_refusal result ≡ word_at section.now position }
{
    let (records, rest) = section.as_chunks::<RECORD>();
    match records.get(position) {
        Some(bytes) => Ok(Some(u128::from_be_bytes(*bytes))),
        None if position == records.len() && !rest.is_empty() => Err(ByteFault::Cut { position }),
        None => Ok(None),
    }
}

// The record that a word holds.
fn from_word(position: usize, word: u128) -> Result<Record, RecordFault>
    ensures { told record_refusal result ≡ read_word position word }
{
    let number = (word >> FIELD_BITS) as i64;
    let kind = Kind::from_number(number).ok_or(RecordFault::UnknownKind { position })?;
    let figures = figures_in(kind, word);
    let record = Record::from_figures(kind, &figures).map_err(|out| RecordFault::OutOfRange {
        position,
        field: out.field,
    })?;
    if_padded(position, kind, word, record)
}

// The record of a word, where the bits behind the last field are zero.
fn if_padded(position: usize, kind: Kind, word: u128, value: Record) -> Result<Record, RecordFault>
    ensures { told record_refusal result ≡ if_padded position value ((word % 2 ^ padding kind) == 0) }
{
    if has_zero_padding(kind, word) {
        Ok(value)
    } else {
        Err(RecordFault::Padding { position })
    }
}
