// SplitMix64: the state and the mixing.
ghost use Rattle.std.specs.Prelude.{◌≡◌};
ghost use Rattle.shuffle.specs.SplitMix.{next_state, mixed};

// The state after this one.
#[tactic(auto, unfolding(crate::specs::SplitMix::next_state))]
pub fn next_state(state: u64) -> u64
    ensures { result ≡ next_state state }
{
    state.wrapping_add(0x9e37_79b9_7f4a_7c15)
}

// SplitMix64's mixing of a state, which is its output there.
#[tactic(auto, unfolding(crate::specs::SplitMix::mixed, crate::specs::SplitMix::product64, crate::specs::SplitMix::xor_shift))]
pub fn mix(state: u64) -> u64
    ensures { result ≡ mixed state }
{
    let x = (state ^ (state >> 30)).wrapping_mul(0xbf58_476d_1ce4_e5b9);
    let y = (x ^ (x >> 27)).wrapping_mul(0x94d0_49bb_1331_11eb);
    y ^ (y >> 31)
}
