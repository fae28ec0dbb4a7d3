// Where an arithmetic progression meets the multiples of a number, by the steps of Euclid's algorithm.

ghost use Rattle.std.specs.Prelude.{◌≡◌, ◌≤◌, ◌<◌, ◌+◌, ◌*◌, ◌%◌, ◌^◌, ℕ, IfSome, IfNone};

/// The least `k` at which `gap + k * step` is a multiple of `n`. If none is below `n`, none is.
///
/// Up to its q-th multiple of `n` the progression takes (q * n - gap) / step steps, if that is a whole number. So what is
/// sought is the least multiple of `n` that, counted from `gap`, is a multiple of `step`: the same question of smaller numbers.
pub fn first_multiple(gap: u64, step: u64, n: u64) -> Option<u64>
    requires modulus { n ≤ 2 ^ 61 }
    requires gap { gap < n }
    requires step { step < n }
    ensures below { IfSome result (λ k. k < n) }
    ensures meets { IfSome result (λ k. (gap + k * step) % n ≡ 0) }
    ensures least { IfSome result (λ k. (j : ℕ) → j < k → (gap + j * step) % n ≡ 0 → ⊥) }
    ensures none { IfNone result ((j : ℕ) → j < n → (gap + j * step) % n ≡ 0 → ⊥) }
{
    if gap == 0 {
        return Some(0);
    }
    if step == 0 {
        return None;
    }
    let first = n - gap;
    let rounds = first_multiple(first % step, n % step, step)?;
    Some(steps(first, rounds, n, step))
}

// How many steps lie in `first` and so many rounds of `n`.
fn steps(first: u64, rounds: u64, n: u64, step: u64) -> u64
    requires step { 0 < step }
    requires short { step < n }
    requires rounds { rounds < step }
    requires first { first < n }
    requires modulus { n ≤ 2 ^ 61 }
    requires whole { (first + rounds * n) % step ≡ 0 }
    ensures exact { result * step ≡ first + rounds * n }
    ensures below { result < n }
{
    ((first as u128 + rounds as u128 * n as u128) / step as u128) as u64
}

/// The least `k` from 1 on at which `k * step` is a multiple of `n`.
pub fn period(step: u64, n: u64) -> u64
    requires modulus { n ≤ 2 ^ 61 }
    requires step { step < n }
    ensures positive { 0 < result }
    ensures small { result ≤ n }
    ensures meets { result * step % n ≡ 0 }
    ensures least { (j : ℕ) → 0 < j → j < result → j * step % n ≡ 0 → ⊥ }
{
    match first_multiple(step, step, n) {
        Some(before) => before + 1,
        None => n,
    }
}
