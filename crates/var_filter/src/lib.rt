// `var_filter`: the filter value of each variant, by a window that slides along them.
#![tactic(auto)]

ghost use Rattle.std.specs.Prelude.{◌≡◌, List, ℕ, ◌≤◌, length};
ghost use Rattle.variants_and_fragments.specs.Refusals.{outcome_of};
ghost use Rattle.variants_and_fragments.specs.Decode.{decode};
ghost use Rattle.variants_and_fragments.specs.Written.{written};
ghost use Rattle.var_filter.specs.Filter.{filter_value, joined_reasons, limits_of, filter_of};
ghost use Rattle.var_filter.specs.Filtered.{VarFiltered};

pub use scan::Scan;
use steps::PHREDProb;
use variants_and_fragments::{Refusal, VarFilter, check_case, long_enough};
pub use window::Window;

mod scan;
mod window;

// When variants stand too close: more than n others of quality gq or more within len bases.
#[derive(Clone, Copy)]
pub struct DensityParameters {
    pub n: u32,
    pub len: u32,
    pub gq: PHREDProb,
}

// The number of a filter. A function: VarFilter is another crate's, so `From<VarFilter> for u8` could stand only there, as a second name for this.
pub fn filter_value(f: VarFilter) -> u8
    ensures { result ≡ filter_value f }
{
    f as u8
}

// The filter with the reasons that hold.
#[tactic(auto, unfolding(crate::specs::Filter::joined_reasons))]
pub fn join_reasons(dense: bool, deep: bool) -> VarFilter
    ensures { filter_value result ≡ joined_reasons dense deep }
{
    match (dense, deep) {
        (false, false) => VarFilter::Pass,
        (true, false) => VarFilter::Density,
        (false, true) => VarFilter::Depth,
        (true, true) => VarFilter::DensityAndDepth,
    }
}

// Writes the filter of each variant into the first N filters. At the loop's head: those below v are written, and the window is the one
// before the visit of v.
pub fn write_filters(scan: &Scan<'_>, max_depth: u32, filters: &mut [u8])
    requires { scan.now.case.laid.sizes.n ≤ length filters.old }
    ensures { (b : List ℕ) → filters.new ≡ written (filter_of (decode scan.now.case.laid.words.now b) scan.now.quals.now (limits_of scan.now.density max_depth)) scan.now.case.laid.sizes.n filters.old }
{
    let variants = scan.case.with_variants();
    let mut window = Window::default();
    for v in 0..scan.case.laid.sizes.n {
        window.slide(scan, v);
        let dense = v < window.marked_end;
        let deep = (max_depth as usize) < variants.depth(v);
        filters[v] = filter_value(join_reasons(dense, deep));
    }
}

// Writes each variant's filter value: 1 where it stands in a dense stretch, 2 where it is too deep, 3 for both, 0 for neither.
pub fn var_filter(
    words: &[i32],
    bases: &[u8],
    quals: &[f64],
    density: DensityParameters,
    max_depth: u32,
    filters: &mut [u8],
) -> Result<(), Refusal>
    ensures { VarFiltered words.now bases.now quals.now (limits_of density max_depth) filters.old (outcome_of result) filters.new }
{
    let case = check_case(words, bases)?;
    let n = case.laid.sizes.n;
    long_enough(&[(n, quals.len()), (n, filters.len())])?;
    if !density.gq.0.is_finite() {
        return Err(Refusal::DensityQual(0));
    }
    let scan = Scan {
        case: case.accepted_words(),
        quals,
        density,
    };
    write_filters(&scan, max_depth, filters);
    Ok(())
}
