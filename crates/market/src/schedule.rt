// A schedule: what a participant is to run in each quarter.
ghost use Rattle.std.specs.Prelude.{◌≡◌, ℕ, Bool, ℤ};
ghost use Rattle.limits.specs.Limits.{quarters};
ghost use Rattle.market.specs.Tests.{Tells, every};
ghost use Rattle.market.specs.Kinds.{Empty, Judges, is_empty, mw, total_mw};

use limits::QUARTERS;

/// Whole MW for each quarter, up positive and down negative. All numbers are admitted.
#[derive(Clone, Copy, PartialEq, Eq, Debug)]
pub struct Schedule {
    pub megawatts: [i32; QUARTERS],
}

impl Schedule {
    /// Nothing in any quarter.
    pub const EMPTY: Schedule = Schedule {
        megawatts: [0; QUARTERS],
    };

    /// Whether it is the empty one.
    pub fn is_empty(&self) -> bool
        ensures answer { result ≡ is_empty self.now.megawatts }
        ensures tells { Tells result (Empty self.now.megawatts) }
    {
        self.megawatts.iter().all(|megawatts| *megawatts == 0)
    }

    /// Whether a test of a quarter and its MW passes in every quarter.
    pub fn every_quarter<F: Fn(usize, i32) -> bool>(&self, test: F) -> bool
        requires { F.IsAlwaysCallable test }
        ensures { (t : ℕ → ℤ → Bool) → Judges (F.post test) t → result ≡ every quarters (λ q. t q (mw self.now.megawatts q)) }
    {
        self.megawatts
            .iter()
            .enumerate()
            .all(|(quarter, &megawatts)| test(quarter, megawatts))
    }

    /// The MW of all quarters together.
    pub fn total(&self) -> i64
        ensures { result ≡ total_mw self.now.megawatts }
    {
        // A loop: tried with `sum()`, and the proof that a signed sum fits did not close.
        let mut sum = 0;
        for megawatts in &self.megawatts {
            sum += i64::from(*megawatts);
        }
        sum
    }
}
