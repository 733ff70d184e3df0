// The values of a record's fields, from their figures.
ghost use Rattle.std.specs.Prelude.{◌≡◌, ◌≤◌, ℤ, pos, true, is_some, Some, Ok};
ghost use Rattle.names.specs.Numbered.{case_at};
ghost use Rattle.layout.specs.Packing.{filled};
ghost use Rattle.layout.specs.Fields.{at};
ghost use Rattle.values.specs.Bounds.{FitQuarters, Fits, GivesQuarters};

use layout::field::{FIGURES, Figures};
use names::numbered::FromNumber;

/// The value of a figure that fits its type.
pub(crate) fn fitted<T: TryFrom<i64>>(figure: i64) -> T
    requires { Fits T.try_from_gives figure }
    ensures { T.try_from_gives figure (Ok result) }
{
    T::try_from(figure).unwrap()
}

/// The case that a figure is the number of.
pub(crate) fn named<T: FromNumber>(figure: i64) -> T
    requires { is_some (case_at T.number T.cases figure) ≡ true }
    ensures found { case_at T.number T.cases figure ≡ Some result }
    ensures kept { pos (T.number result) ≡ figure }
{
    T::from_number(figure).unwrap()
}

/// The values of four figures from a place on, one for each quarter.
pub(crate) fn quarters<T: TryFrom<i64>>(figures: &Figures, place: usize) -> [T; 4]
    requires { FitQuarters (Fits T.try_from_gives) figures.now place }
    ensures { GivesQuarters T.try_from_gives figures.now place result }
{
    [
        fitted(figures[place]),
        fitted(figures[place + 1]),
        fitted(figures[place + 2]),
        fitted(figures[place + 3]),
    ]
}

/// Figures with zeros behind them.
pub(crate) fn filled<const N: usize>(front: [i64; N]) -> Figures
    requires { N ≤ 11 }
    ensures { result ≡ filled front.entry }
{
    let mut figures = [0; FIGURES];
    figures[..N].copy_from_slice(&front);
    figures
}
