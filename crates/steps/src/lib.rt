// The stand-in arithmetic of document 01, section 1: log probabilities in steps, probabilities and Phred values, as separate units.
#![tactic(auto)]

ghost use Rattle.std.specs.Prelude.{◌≡◌, ℕ, ◌+◌, ◌^◌, ◌<◌, ◌≤◌, max, true, map, length, pos, int_le, unsigned_abs, slice_index_or};
ghost use Rattle.steps.specs.Table.{knots};
ghost use Rattle.steps.specs.Logs.{mark, steps, mix_of, ln_add_exp, ln_sum_exp};
ghost use Rattle.steps.specs.Inner.Logs.{log_of, size};
ghost use Rattle.steps.specs.OneMinus.{ln_one_minus_exp};
ghost use Rattle.steps.specs.Inner.Probs.{half, quarter, Known, ln_of};

mod addend;
mod knots;
mod lines;
mod logs;
pub mod one_plus;
pub mod phred;

// A log probability, in steps.
#[derive(Clone, Copy, PartialEq, Eq, PartialOrd, Ord, Debug)]
pub struct LogProb(pub i64);

// A probability.
#[derive(Clone, Copy)]
pub struct Prob(pub f64);

// A Phred-scaled probability.
#[derive(Clone, Copy)]
pub struct PHREDProb(pub f64);

// The knots.
#[tactic(auto, unfolding(crate::specs::Table::knots))]
pub fn table() -> &'static [u16; 1665]
    ensures { result.now ≡ knots }
{
    &knots::KNOTS
}

// Two constants: a const parameter is no f64, and 0.5 and 0.25 are all that the document takes a logarithm of.
impl Prob {
    // 0.5
    #[tactic(auto, unfolding(crate::specs::Inner::Probs::half))]
    pub fn half() -> Self
        ensures { result.0 ≡ half }
    {
        Prob(0.5)
    }

    // 0.25
    #[tactic(auto, unfolding(crate::specs::Inner::Probs::quarter))]
    pub fn quarter() -> Self
        ensures { result.0 ≡ quarter }
    {
        Prob(0.25)
    }
}

impl LogProb {
    // Probability zero.
    #[tactic(auto, using(crate::proofs::Marks::of_least))]
    pub fn ln_zero() -> Self
        ensures { log_of result.0 ≡ mark }
    {
        LogProb(logs::MARK)
    }

    // Certainty.
    #[tactic(auto, using(crate::proofs::Marks::of_small))]
    pub fn ln_one() -> Self
        ensures { log_of result.0 ≡ steps (pos 0) }
    {
        LogProb(0)
    }

    // ln(0.5) is −4,096, ln(0.25) is −8,192.
    #[tactic(auto, unfolding(crate::specs::Inner::Probs::ln_of, crate::specs::Inner::Probs::half))]
    pub fn from_prob(p: Prob) -> Self
        requires { Known p.0 }
        ensures { result.0 ≡ ln_of p.0 }
    {
        let x = p.0;
        if x == 0.5 {
            LogProb(-4096)
        } else {
            LogProb(-8192)
        }
    }

    // The sum of two probabilities; the mark gives the other one.
    pub fn ln_add_exp(self, other: LogProb) -> Self
        requires { (size (log_of self.0) ≤ 2 ^ 61) × (size (log_of other.0) ≤ 2 ^ 61) }
        ensures { log_of result.0 ≡ ln_add_exp (log_of self.0) (log_of other.0) }
    {
        if logs::is_mark(self.0) {
            return other;
        }
        if logs::is_mark(other.0) {
            return self;
        }
        LogProb(logs::add_exp(self.0, other.0))
    }

    // Half of each of two probabilities: ln_add_exp of both less 4,096 each. Neither is the mark.
    pub fn mix(self, other: LogProb) -> Self
        requires { (unsigned_abs self.0 ≤ 2 ^ 40) × (unsigned_abs other.0 ≤ 2 ^ 40) }
        ensures value { result.0 ≡ mix_of self.0 other.0 }
        ensures bound { unsigned_abs result.0 ≤ max (unsigned_abs self.0) (unsigned_abs other.0) + 8192 }
    {
        LogProb(self.0 - 4096).ln_add_exp(LogProb(other.0 - 4096))
    }

    // The sum of the probabilities in s, from the left, starting at the mark.
    pub fn ln_sum_exp(s: &[i64]) -> Self
        requires { (length s.now ≤ 2 ^ 40) × ((k : ℕ) → k < length s.now → size (log_of (slice_index_or s.now k (pos 0))) ≤ 2 ^ 60) }
        ensures { log_of result.0 ≡ ln_sum_exp (map log_of s.now) }
    {
        let mut sum = LogProb::ln_zero();
        for x in s {
            sum = sum.ln_add_exp(LogProb(*x));
        }
        sum
    }

    // What is left of certainty: of 0 the mark, of the mark 0; below 0 the greatest q at most 0 with ln_add_exp(self, q) at most 0.
    pub fn ln_one_minus_exp(self) -> Self
        requires { (size (log_of self.0) ≤ 2 ^ 61) × (int_le self.0 (pos 0) ≡ true) }
        ensures { log_of result.0 ≡ ln_one_minus_exp (log_of self.0) }
    {
        let p = self.0;
        if logs::is_mark(p) {
            return LogProb::ln_one();
        }
        if p == 0 {
            return LogProb::ln_zero();
        }
        LogProb(logs::below_zero(logs::steps_down(p)))
    }
}
