// A(d), over the knots.
ghost use Rattle.std.specs.Prelude.{◌≡◌, ◌-◌, ◌*◌, ◌/◌, ◌<◌, ◌≤◌};
ghost use Rattle.steps.specs.Addend as spec;

use crate::table;

// The line from x to y, at r of 32.
fn line(x: usize, y: usize, r: usize) -> usize
    requires { (y ≤ x) × (x ≤ 4096) × (r < 32) }
    ensures { result ≡ x - (x - y) * r / 32 }
{
    x - (x - y) * r / 32
}

// A(d). From T[1604] on the knots are 0.
pub fn addend(d: usize) -> usize
    ensures { result ≡ spec.addend d }
{
    let t = table();
    let k = (d / 32).min(1604);
    line(t[k] as usize, t[k + 1] as usize, d % 32)
}
