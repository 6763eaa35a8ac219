// What C hands over by value.
ghost use Rattle.std.specs.Prelude.{◌≡◌};
ghost use Rattle.exports.specs.Inputs.{rates_of, density_of};

use steps::{LogProb, PHREDProb};

// The rates from which the priors are made, in steps.
#[repr(C)]
#[derive(Clone, Copy)]
pub struct Rates {
    pub hom_snv: i64,
    pub het_snv: i64,
    pub hom_indel: i64,
    pub het_indel: i64,
    pub ts: i64,
    pub tv: i64,
}

// When variants stand too close: more than n others of quality gq or more within len bases.
#[repr(C)]
#[derive(Clone, Copy)]
pub struct DensityParameters {
    pub n: u32,
    pub len: u32,
    pub gq: f64,
}

// The rates that the operations take.
impl From<Rates> for genotype_probs::Rates {
    ghost from_gives = { λ r x. x ≡ rates_of r };

    fn from(r: Rates) -> genotype_probs::Rates {
        genotype_probs::Rates {
            hom_snv: LogProb(r.hom_snv),
            het_snv: LogProb(r.het_snv),
            hom_indel: LogProb(r.hom_indel),
            het_indel: LogProb(r.het_indel),
            ts: LogProb(r.ts),
            tv: LogProb(r.tv),
        }
    }
}

// The density that `var_filter` takes.
impl From<DensityParameters> for var_filter::DensityParameters {
    ghost from_gives = { λ d x. x ≡ density_of d };

    fn from(d: DensityParameters) -> var_filter::DensityParameters {
        var_filter::DensityParameters {
            n: d.n,
            len: d.len,
            gq: PHREDProb(d.gq),
        }
    }
}
