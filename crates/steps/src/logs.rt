// The numbers under the methods of LogProb, in steps.
ghost use Rattle.std.specs.Prelude.{◌≡◌, ◌^◌, ◌≤◌, true, pos, neg_ℤ, int_lt, unsigned_abs};
ghost use Rattle.steps.specs.Logs.{steps, add_exp};
ghost use Rattle.steps.specs.Inner.Logs.{is_mark};
ghost use Rattle.steps.specs.OneMinus.{low, ln_one_minus_exp};

use crate::addend::addend;

// Probability zero. A number and no Option: document 01 and the C interface have a log probability as one i64.
pub const MARK: i64 = -9223372036854775808;

// Whether a stands for probability zero. A function and no bare `==`: its contract says what equality with MARK is in the definitions.
#[tactic(auto, using(crate::proofs::Marks::mark_bits))]
pub fn is_mark(a: i64) -> bool
    ensures { result ≡ is_mark a }
{
    a == MARK
}

// ln_add_exp of two finite ones: the larger + A(difference).
pub fn add_exp(a: i64, b: i64) -> i64
    requires { (unsigned_abs a ≤ 2 ^ 61) × (unsigned_abs b ≤ 2 ^ 61) }
    ensures { result ≡ add_exp a b }
{
    a.max(b) + addend(a.abs_diff(b) as usize) as i64
}

// −b
pub fn below_zero(b: usize) -> i64
    requires { b ≤ 57344 }
    ensures { result ≡ neg_ℤ (pos b) }
{
    -(b as i64)
}

// Whether ln_add_exp(p, −b) is at most 0.
#[tactic(auto, unfolding(crate::specs::OneMinus::low))]
fn low_enough(p: i64, b: usize) -> bool
    requires { (unsigned_abs p ≤ 2 ^ 61) × (b ≤ 57344) }
    ensures { result ≡ low p b }
{
    add_exp(p, below_zero(b)) <= 0
}

// How many steps below 0 ln_one_minus_exp(p) is, for p below 0. At the loop's head `hi` steps are low enough, and fewer than `lo` are not.
// A `while`: no slice holds the numbers from 0 to 57,344, so there is nothing for `partition_point` to search.
pub fn steps_down(p: i64) -> usize
    requires { (unsigned_abs p ≤ 2 ^ 61) × (int_lt p (pos 0) ≡ true) }
    ensures { (result ≤ 57344) × (ln_one_minus_exp (steps p) ≡ steps (neg_ℤ (pos result))) }
{
    let mut lo: usize = 0;
    let mut hi: usize = 57344;
    while lo < hi {
        let mid = lo + (hi - lo) / 2;
        if low_enough(p, mid) {
            hi = mid;
        } else {
            lo = mid + 1;
        }
    }
    lo
}
