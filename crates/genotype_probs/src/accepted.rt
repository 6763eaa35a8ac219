// The check of the rates: number 6 of document 01's table, and section 3.
ghost use Rattle.std.specs.Prelude.{◌≡◌, true, IfOk};
ghost use Rattle.variants_and_fragments.specs.Refusals.{answered};
ghost use Rattle.genotype_probs.specs.Rates.{hom_snv_rate, het_snv_rate, hom_indel_rate, het_indel_rate, rate_ok, rate_sum};
ghost use Rattle.genotype_probs.specs.Inner.Rates.{rates_fault, rates_outcome};

use crate::Rates;
use steps::LogProb;
use variants_and_fragments::Refusal;

// Rates that the check accepted.
#[derive(Clone, Copy)]
pub struct AcceptedRates {
    pub rates: Rates,
    pub ghost accepted: { rates_fault rates ≡ 7 },
}

// Whether a rate is in −262144..−1.
#[tactic(auto, unfolding(crate::specs::Rates::rate_ok, variants_and_fragments::specs::Words::within))]
fn rate_ok(rate: LogProb) -> bool
    ensures { result ≡ rate_ok rate.0 }
{
    (-262144..=-1).contains(&rate.0)
}

impl Rates {
    // ln_sum_exp of the first four rates.
    pub fn rate_sum(self) -> LogProb
        requires { (rate_ok (hom_snv_rate self) ≡ true) × (rate_ok (het_snv_rate self) ≡ true) × (rate_ok (hom_indel_rate self) ≡ true) × (rate_ok (het_indel_rate self) ≡ true) }
        ensures { result.0 ≡ rate_sum self }
    {
        let four = [
            self.hom_snv.0,
            self.het_snv.0,
            self.hom_indel.0,
            self.het_indel.0,
        ];
        LogProb::ln_sum_exp(&four)
    }

    // The rates, where each is in its range and the sum of the first four is below 0. The place of a fault is that of the first wrong rate, or 6.
    pub fn accepted(self) -> Result<AcceptedRates, Refusal>
        ensures outcome { answered (λ _. tt) result ≡ rates_outcome self }
        ensures same { IfOk result (λ accepted. accepted.rates ≡ self) }
    {
        let six = [
            self.hom_snv,
            self.het_snv,
            self.hom_indel,
            self.het_indel,
            self.ts,
            self.tv,
        ];
        if let Some(place) = six.iter().position(|rate| !rate_ok(*rate)) {
            return Err(Refusal::Rates(place));
        }
        let below = self.rate_sum() < LogProb(0);
        if below {
            return Ok(AcceptedRates { rates: self });
        }
        Err(Refusal::Rates(6))
    }
}
