// The fields of a kind of record: which figures they admit, and the bits that figures stand in.
ghost use Rattle.std.specs.Prelude.{◌≡◌, ◌+◌, ◌/◌, ◌%◌, ◌^◌, ◌<◌, ◌≤◌};
ghost use Rattle.layout.specs.Packing.{InRange, bits_of, figures_in, filled, first_out_of_range, packed};
ghost use Rattle.layout.specs.Sound.{Laid};

use crate::field::{FIGURES, Field, Figures};
use crate::packing::FIELD_BITS;

/// Fields that the table lays out, in their order: at most eleven, in the bits below the kind.
#[derive(Clone, Copy)]
pub struct Fields {
    pub list: &'static [Field],
    ghost laid: { Laid list.now },
}

impl Fields {
    // The number of the first field that does not admit its figure.
    pub(crate) fn first_bad(self, figures: &Figures) -> Option<usize>
        ensures { result ≡ first_out_of_range self.list.now 0 figures.now }
    {
        self.list
            .iter()
            .zip(figures)
            .position(|(field, figure)| !field.admits(figures, *figure))
            .map(field_number)
    }

    // The figures that the lowest 124 bits of a word hold, each field below the one before it.
    pub(crate) fn unpack(self, word: u128) -> Figures
        ensures { result ≡ filled (figures_in self.list.now 124 word) }
    {
        let mut figures = [0; FIGURES];
        let mut left = FIELD_BITS;
        // By place: a `zip` with `iter_mut` was tried, and no proof knows what that wrote.
        for (i, field) in self.list.iter().enumerate() {
            left -= field.width;
            figures[i] = field.figure(bits(word, left, field.width));
        }
        figures
    }

    // The figures in the lowest 124 bits of a word, each field below the one before it.
    pub(crate) fn pack(self, figures: &Figures) -> u128
        requires { InRange self.list.now 0 figures.now }
        ensures { result ≡ packed self.list.now 124 0 figures.now }
    {
        let mut word = 0;
        let mut left = FIELD_BITS;
        for (field, figure) in self.list.iter().zip(figures) {
            left -= field.width;
            word += u128::from(field.stored(figures, *figure)) << left;
        }
        word
    }

    // How many bits the fields take.
    pub(crate) fn used_bits(self) -> u32
        ensures { result ≡ bits_of self.list.now }
    {
        self.list.iter().map(|field| field.width).sum()
    }
}

// The number of the field whose figure stands at a place: the kind is field 1, the first figure's
// field is 2.
fn field_number(place: usize) -> usize
    requires { place < 11 }
    ensures { result ≡ place + 2 }
{
    place + 2
}

// The `width` bits of a word above its lowest `left` bits.
fn bits(word: u128, left: u32, width: u32) -> u64
    requires below { left < 128 }
    requires narrow { width ≤ 64 }
    ensures { result ≡ word / 2 ^ left % 2 ^ width }
{
    ((word >> left) & ((1 << width) - 1)) as u64
}
