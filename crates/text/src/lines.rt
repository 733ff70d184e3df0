// The text lines of a statement.
ghost use Rattle.std.specs.Prelude.{◌≡◌, ◌+◌, ◌≤◌, ◌++◌, length, nat_le};
ghost use Rattle.arrayvec.specs.ArrayString.{array_string_len};
ghost use Rattle.faults.specs.Refusals.{sheet_refusal, told};
ghost use Rattle.records.specs.Writing.{checked, then_room};
ghost use Rattle.text.specs.Lines.{bid_line, line_answer, line_written, total_line};
ghost use Rattle.text.specs.Text.{field, put};

use crate::money::Money;
use arrayvec::ArrayString;
use faults::{RecordFault, SheetFault};
use itoa::Buffer;
use names::numbered::Numbered;
use records::writing::check;
use values::value::{LineRecord, Record, TotalRecord};

// Every line fits this many bytes.
const ROOM: usize = 64;

/// Writes the text of a bid's line or of a total into a buffer, and gives its length. Bytes
/// behind it stay; a refusal leaves the buffer as it was.
pub fn write_text(value: &Record, buffer: &mut [u8]) -> Result<usize, SheetFault>
    ensures answer { told sheet_refusal result ≡ line_answer value.now (length buffer.old) }
    ensures buffer { buffer.new ≡ line_written value.now buffer.old result }
{
    match value {
        Record::Line(line) => {
            check_room(value, buffer.len())?;
            Ok(put_bid(buffer, line))
        }
        Record::Total(total) => {
            check_room(value, buffer.len())?;
            Ok(put_total(buffer, total))
        }
        _ => Err(RecordFault::OtherKind { position: 0 }.into()),
    }
}

// A value that a record can hold, and a buffer that its line fits.
fn check_room(value: &Record, size: usize) -> Result<(), SheetFault>
    ensures { told sheet_refusal result ≡ then_room (nat_le 64 size) (checked value.now) }
{
    check(value)?;
    if size < ROOM {
        return Err(SheetFault::NoRoom);
    }
    Ok(())
}

// A line is built behind the tests and in a function of its own: a function pays at its entry for
// the room of its locals, and a refusal has no use for them.
fn put_bid(buffer: &mut [u8], line: &LineRecord) -> usize
    requires { 64 ≤ length buffer.old }
    ensures end { result ≡ length (bid_line line.now) }
    ensures after { buffer.new ≡ put buffer.old 0 (bid_line line.now) }
{
    put(buffer, bid_line(line).as_str())
}

fn put_total(buffer: &mut [u8], total: &TotalRecord) -> usize
    requires { 64 ≤ length buffer.old }
    ensures end { result ≡ length (total_line total.now) }
    ensures after { buffer.new ≡ put buffer.old 0 (total_line total.now) }
{
    put(buffer, total_line(total).as_str())
}

// Puts a line at the front of a buffer, and gives its length.
fn put(buffer: &mut [u8], text: &str) -> usize
    requires { length text.now ≤ length buffer.old }
    ensures end { result ≡ length text.now }
    ensures after { buffer.new ≡ put buffer.old 0 text.now }
{
    buffer[..text.len()].copy_from_slice(text.as_bytes());
    text.len()
}

fn bid_line(line: &LineRecord) -> ArrayString<ROOM>
    ensures { result.bytes ≡ bid_line line.now }
{
    let mut text = ArrayString::new();
    text.push_str("bid");
    push_field(&mut text, Buffer::new().format(line.list.number()));
    push_field(&mut text, Buffer::new().format(line.number));
    push_field(&mut text, Money(line.payment).text().as_str());
    push_field(&mut text, Money(line.deduction).text().as_str());
    text.push('\n');
    text
}

fn total_line(total: &TotalRecord) -> ArrayString<ROOM>
    ensures { result.bytes ≡ total_line total.now }
{
    let mut text = ArrayString::new();
    text.push_str("total");
    push_field(&mut text, Buffer::new().format(total.which.number()));
    push_field(&mut text, Money(total.value).text().as_str());
    text.push('\n');
    text
}

// Adds a space and a field.
fn push_field(text: &mut ArrayString<ROOM>, bytes: &str)
    requires { array_string_len text.old + 1 + length bytes.now ≤ ROOM }
    ensures { text.new.bytes ≡ text.old.bytes ++ field bytes.now }
{
    text.push(' ');
    text.push_str(bytes);
}
