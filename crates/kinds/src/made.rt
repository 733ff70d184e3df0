// What is made from figures that may not fit.
ghost use Rattle.std.specs.Prelude.{◌≡◌, Bool, true};
ghost use Rattle.market.specs.Kinds.{Kind, Sound, is_strict};
ghost use Rattle.kinds.specs.Made.{MadeFrom};

use market::participant::Participant;

/// A participant that is made from figures, where they fit. What it means is known from them alone.
pub trait Makeable: Participant + Drop {
    type Figures: Copy;

    ghost fits: { Self.Figures → Bool };

    // What is made from figures that fit means.
    ghost meaning: { Self.Figures → Kind };

    ghost figures_of: { Self → Self.Figures };

    /// Makes one of these figures; none where they do not fit.
    fn make(figures: &Self::Figures) -> Option<Self>
        ensures { MadeFrom fits figures_of figures.now result };

    ghost means: { (x : Self) → Self.Participant.kind x ≡ meaning (figures_of x) };

    ghost bears: { (f : Self.Figures) → (meaning f).strict ≡ is_strict Self.MARK };

    ghost sound_where_fit: { (f : Self.Figures) → fits f ≡ true → Sound (meaning f) };
}
