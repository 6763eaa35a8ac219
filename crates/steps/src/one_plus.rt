// ln(1 + exp(d)) by a table of straight lines, with no absolute value and no larger one to find.
ghost use Rattle.std.specs.Prelude.{◌≡◌, ◌^◌, ◌≤◌, pos, unsigned_abs};
ghost use Rattle.steps.specs.Logs.{add_exp};
ghost use Rattle.steps.specs.Inner.Lines.{Holds};
ghost use Rattle.steps.specs.Inner.Lines as spec;

// The lines, each by its base and its slope.
pub fn lines() -> &'static [(u32, u32); 3210]
    ensures { result.now ≡ spec.lines }
{
    &crate::lines::LINES
}

// Which of the lines holds at d: 3,208 pieces of 32 steps from −51,328 on, then the far ones, above (3208) and below (3209). e is d + 51,328
// modulo 2^64. Both arms are computed, so no jump is made of the test.
fn piece(d: i64) -> usize
    requires { unsigned_abs d ≤ 2 ^ 36 }
    ensures { Holds result d }
{
    let e = d.cast_unsigned().wrapping_add(51328) as usize;
    let k = e / 32;
    let far = 3208 + e / 9223372036854775808;
    let near = k < 3208;
    if near { k } else { far }
}

// ln(1 + exp(d)), in steps.
pub fn ln_one_plus_exp(d: i64) -> i64
    requires { unsigned_abs d ≤ 2 ^ 36 }
    ensures { result ≡ add_exp d (pos 0) }
{
    let (base, slope) = lines()[piece(d)];
    ((base as i64 + slope as i64 * d) as usize / 32) as i64
}
