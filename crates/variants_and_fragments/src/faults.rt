// The first place at which a test fails.
ghost use Rattle.std.specs.Prelude.{◌≡◌, ◌<◌, ◌≤◌, ℕ, true, false, MatchOption};

// The first of the numbers from `first` on and below `end` at which the test fails.
pub fn first_fault<F: Fn(usize) -> bool>(first: usize, end: usize, ok: F) -> Option<usize>
    requires { (v : ℕ) → first ≤ v → v < end → F.pre ok v }
    ensures { MatchOption result ((v : ℕ) → first ≤ v → v < end → F.post ok v true) (λ r. (first ≤ r) × (r < end) × F.post ok r false × ((v : ℕ) → first ≤ v → v < r → F.post ok v true)) }
{
    for v in first..end {
        if !ok(v) {
            return Some(v);
        }
    }
    None
}
