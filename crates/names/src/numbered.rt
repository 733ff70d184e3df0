// Enums whose cases stand in records, or in what a fault tells, as numbers.
ghost use Rattle.std.specs.Prelude.{◌≡◌, ℕ, List, Some, pos};
ghost use Rattle.names.specs.Numbered.{Exactly, case_at, numbered};

/// An enum each of whose cases has a number.
pub trait Numbered: Copy {
    ghost number: { Self → ℕ };

    /// The number that stands for the case.
    // In each impl the cast stands again, since a cast names its enum.
    fn number(self) -> u8
        ensures { result ≡ number self };
}

/// An enum each of whose cases is known by its number.
// Not `TryFrom`: no impl of it can be for every such enum, so each would need its own.
pub trait FromNumber: Numbered + 'static {
    ghost cases: { List Self };

    /// All cases.
    fn cases() -> &'static [Self]
        ensures { result.now ≡ cases };

    // Each case is the first that has its number.
    ghost found: { (x : Self) → case_at Self.number cases (pos (Self.number x)) ≡ Some x };

    /// The case that a figure is the number of; none where it is no case's.
    final fn from_number(figure: i64) -> Option<Self>
        ensures answer { result ≡ case_at Self.number cases figure }
        ensures exact { Exactly Self.number figure result }
    {
        case_at(Self::cases(), figure)
    }
}

// The first of some cases that has number `n`. A loop: with `find` a number that no case has cost
// twice as much among many cases.
fn case_numbered<T: Numbered>(cases: &[T], n: u64) -> Option<T>
    ensures { result ≡ numbered T.Numbered.number n cases.now }
{
    for case in cases {
        if u64::from(case.number()) == n {
            return Some(*case);
        }
    }
    None
}

/// The first of some cases whose number a figure is; none where it is no case's.
pub fn case_at<T: Numbered>(cases: &[T], figure: i64) -> Option<T>
    ensures { result ≡ case_at T.number cases.now figure }
{
    // No number is below 0: no case is asked for its own.
    if figure < 0 {
        None
    } else {
        case_numbered(cases, figure.unsigned_abs())
    }
}
