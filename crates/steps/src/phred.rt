// Phred values of log probabilities.
ghost use Rattle.std.specs.Prelude.{◌≡◌, ◌^◌, ◌<◌};
ghost use Rattle.steps.specs.Inner.Logs.{log_of, size};
ghost use Rattle.steps.specs.Phred.{phred_of, capped, quality_byte};

use crate::{LogProb, PHREDProb, logs};

// No quality is above it.
pub const MAX_VCF_QUAL: f64 = 500.0;

// Phred of one step below 0.
const SCALE: f64 = (3.010299956639812 / 1048576.0) * 256.0;

// Phred of p, in one rounded product; the mark has the largest quality.
pub fn phred(p: LogProb) -> PHREDProb
    requires { size (log_of p.0) < 2 ^ 52 }
    ensures { result.0 ≡ phred_of (log_of p.0) }
{
    let z = p.0;
    if logs::is_mark(z) {
        return PHREDProb(MAX_VCF_QUAL);
    }
    PHREDProb((-z) as f64 * SCALE)
}

// Phred of p, at most the largest quality. Not `min`: of a NaN it gives the cap, `capped` the NaN, and std has no law that the product is none.
#[tactic(auto, unfolding(crate::specs::Phred::capped, crate::specs::Phred::max_vcf_qual))]
pub fn capped_phred(p: LogProb) -> PHREDProb
    requires { size (log_of p.0) < 2 ^ 52 }
    ensures { result.0 ≡ capped (phred_of (log_of p.0)) }
{
    let q = phred(p);
    if q.0 > MAX_VCF_QUAL {
        PHREDProb(MAX_VCF_QUAL)
    } else {
        q
    }
}

// The quality byte: 33 and the number of w in 1..93 with w at most q. A loop: by `filter` and `count` 4,096 qualities take 830 µs, by this loop 207.
#[tactic(auto, unfolding(crate::specs::Phred::count_up_to))]
pub fn quality_byte(q: PHREDProb) -> u8
    ensures { result ≡ quality_byte q.0 }
{
    let x = q.0;
    let mut n: u8 = 33;
    for w in 1..=93u8 {
        if w as f64 <= x {
            n += 1;
        }
    }
    n
}
