// An f64 as the number that its 64 bits are. Any pattern of a NaN stands for the one NaN.
ghost use Rattle.std.specs.Prelude.{◌≡◌, from_bits, to_bits};
ghost use Rattle.std.specs.Float.{binary64};
ghost use Rattle.std.specs.Float.Ieee.{nan_bits};

// The bit of a pattern that is the sign.
const SIGN: u64 = 1 << 63;

// The pattern that stands for every NaN's.
const NAN: u64 = 9221120237041090560;

// Whether bits is a NaN's pattern: without the sign, above an infinity's. std's `is_nan` comes too late, as its `from_bits`
// takes no NaN's pattern.
fn is_nan(bits: u64) -> bool
    ensures { result ≡ nan_bits binary64 bits }
{
    bits % SIGN > f64::INFINITY.to_bits()
}

// The f64 of a pattern.
pub fn from_pattern(bits: u64) -> f64
    ensures { result ≡ from_bits binary64 bits }
{
    if is_nan(bits) {
        f64::NAN
    } else {
        f64::from_bits(bits)
    }
}

// The pattern of an f64; of a NaN `NAN`.
pub fn pattern(x: f64) -> u64
    ensures { result ≡ to_bits binary64 x }
{
    if x.is_nan() { NAN } else { x.to_bits() }
}
