// What the window slides along: a case's variants, a quality for each of them, and when they stand too close.
ghost use Rattle.std.specs.Prelude.{◌≡◌, ◌<◌, ◌≤◌, length};
ghost use Rattle.var_filter.specs.Filter.{strong};

use crate::DensityParameters;
use variants_and_fragments::CaseWords;

#[derive(Clone, Copy)]
pub struct Scan<'a> {
    pub case: CaseWords<'a>,
    pub quals: &'a [f64],
    pub density: DensityParameters,
    pub ghost quals_in: { case.laid.sizes.n ≤ length quals.now },
}

impl Scan<'_> {
    // Variant v's quality is not below density.gq.
    #[tactic(auto, unfolding(crate::specs::Filter::strong))]
    pub fn is_strong(&self, v: usize) -> bool
        requires { v < self.now.case.laid.sizes.n }
        ensures { result ≡ strong self.now.quals.now self.now.density.gq.0 v }
    {
        !(self.quals[v] < self.density.gq.0)
    }
}
