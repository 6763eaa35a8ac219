// The ranges of the values: the total and each likelihood in −2^40..0, each count in 0..4096.
ghost use Rattle.std.specs.Prelude.{◌≡◌, ◌*◌, ◌≤◌, ◌↔◌, true, IsTrue, EachIndex, slice_index_or, pos, length};
ghost use Rattle.variants_and_fragments.specs.Words.{within};
ghost use Rattle.late_reads.specs.Values.{values, lowest_total, max_count, in_range};

use steps::LogProb;
use variants_and_fragments::Sizes;

const LOWEST_TOTAL: i64 = -1099511627776;

const MAX_COUNT: i32 = 4096;

// A total or a likelihood is in its range.
pub fn total_ok(x: LogProb) -> bool
    ensures { result ≡ within lowest_total (pos 0) x.0 }
{
    (LOWEST_TOTAL..=0).contains(&x.0)
}

// A count is in its range.
pub fn count_ok(z: i32) -> bool
    ensures { result ≡ within (pos 0) (pos max_count) z }
{
    (0..=MAX_COUNT).contains(&z)
}

// Each likelihood is in range.
fn likelihoods_ok(likelihoods: &[i64]) -> bool
    ensures { IsTrue result ↔ EachIndex likelihoods.now (λ e. within lowest_total (pos 0) (slice_index_or likelihoods.now e (pos 0)) ≡ true) }
{
    likelihoods.iter().all(|x| total_ok(LogProb(*x)))
}

// Each count is in range.
fn counts_ok(counts: &[i32]) -> bool
    ensures { IsTrue result ↔ EachIndex counts.now (λ e. within (pos 0) (pos max_count) (slice_index_or counts.now e (pos 0)) ≡ true) }
{
    counts.iter().all(|x| count_ok(*x))
}

// The values of a case of these sizes are in range.
pub fn in_range(s: Sizes, likelihoods: &[i64], counts: &[i32], total: LogProb) -> bool
    requires { (s.n ≤ 1024) × (s.f ≤ 4096) × (2 * s.f ≤ length likelihoods.now) × (10 * s.n ≤ length counts.now) }
    ensures { result ≡ in_range s.n s.f (values likelihoods.now counts.now total.0) }
{
    let a = total_ok(total);
    let b = likelihoods_ok(&likelihoods[..2 * s.f]);
    let c = counts_ok(&counts[..10 * s.n]);
    a & (b & c)
}
