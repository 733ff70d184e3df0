// A sum of an amount for each number below a limit.
ghost use Rattle.std.specs.Prelude.{◌≡◌, ℕ, ℤ, ◌*◌, ◌≤◌};
ghost use Rattle.limits.specs.Limits.{zones};
ghost use Rattle.market.specs.Kinds.{zone_worth_limit};
ghost use Rattle.market.specs.Sums.{AmountsBelow, CanBelow, SmallBelow, sum_below};
ghost use Rattle.market.specs.Tests.{Within};

/// The sum of the amounts of the numbers below `n`, such as of the quarters or of the zones.
pub fn sum_below<F: Fn(usize) -> i64>(n: usize, amount: F) -> i64
    requires few { n ≤ zones }
    requires can { CanBelow n (F.pre amount) }
    requires small { SmallBelow n (F.post amount) zone_worth_limit }
    ensures value { (f : ℕ → ℤ) → AmountsBelow n (F.post amount) f → result ≡ sum_below n f }
    ensures within { (limit : ℕ) → SmallBelow n (F.post amount) limit → Within (n * limit) result }
{
    // A loop: tried with `sum()`, and the proof that a signed sum fits did not close.
    let mut sum = 0;
    for number in 0..n {
        sum += amount(number);
    }
    sum
}
