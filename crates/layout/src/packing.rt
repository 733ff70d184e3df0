// A kind and its figures as a word of 128 bits, and back.
ghost use Rattle.std.specs.Prelude.{◌≡◌, ◌%◌, ◌^◌, ◌==◌};
ghost use Rattle.layout.specs.Layout.{fields_of};
ghost use Rattle.layout.specs.Packing.{First, figures_in, filled, first_out_of_range, padding, word_or_field};

use crate::field::Figures;
use crate::kind::Kind;
use names::numbered::Numbered;

/// The kind has the highest 4 of 128 bits; the fields share these.
pub const FIELD_BITS: u32 = 124;

/// Why figures have no word: the number of the first field whose figure is out of its range.
#[derive(Clone, Copy, PartialEq, Eq, Debug)]
pub struct OutOfRange {
    pub field: usize,
}

/// The number of the first field whose figure is out of its range; the kind is field 1.
pub fn first_out_of_range(kind: Kind, figures: &Figures) -> Option<usize>
    ensures answer { result ≡ first_out_of_range (fields_of kind) 0 figures.now }
    ensures first { First (fields_of kind) 0 figures.now result }
{
    kind.fields().first_bad(figures)
}

/// The figures of a word that is read as a record of a kind.
pub fn figures_in(kind: Kind, word: u128) -> Figures
    ensures { result ≡ filled (figures_in (fields_of kind) 124 word) }
{
    kind.fields().unpack(word)
}

/// Whether the bits behind the last field of a kind are all zero.
pub fn has_zero_padding(kind: Kind, word: u128) -> bool
    ensures { result ≡ (word % 2 ^ padding kind == 0) }
{
    let padding = FIELD_BITS - kind.fields().used_bits();
    word % (1 << padding) == 0
}

/// The word that holds a kind and its figures, or the first field whose figure is out of range.
pub fn word_of(kind: Kind, figures: &Figures) -> Result<u128, OutOfRange>
    ensures { result ≡ word_or_field kind figures.now }
{
    // A `match`: a closure for the word would have to ask again that no field is out of range.
    match first_out_of_range(kind, figures) {
        Some(field) => Err(OutOfRange { field }),
        None => Ok((u128::from(kind.number()) << FIELD_BITS) + kind.fields().pack(figures)),
    }
}
