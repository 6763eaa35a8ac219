// Orders one after the other: writing them, and finding one that is no permutation.
ghost use Rattle.std.specs.Prelude.{◌≡◌, ℕ, ◌*◌, ◌<◌, ◌≤◌, length, All, MatchOption};
ghost use Rattle.shuffle.specs.Permutation.{permutes};
ghost use Rattle.shuffle.specs.Orders.{order_count, orders_from};
ghost use Rattle.shuffle.specs.Inner.Answers.{first_bad_order};

use crate::fisher_yates::shuffle_order;

// The number of orders of n variants in a slice of so many elements; none where that many are refused.
#[tactic(auto, unfolding(crate::specs::Orders::order_count))]
pub fn order_count(n: usize, elements: usize) -> Option<usize>
    ensures { MatchOption result (order_count n elements ≡ 0) (λ m. (0 < m) × (m ≡ order_count n elements)) }
{
    if n == 0 {
        return (elements == 0).then_some(1);
    }
    (0 < elements && elements.is_multiple_of(n)).then_some(elements / n)
}

// Writes m orders of n variants, each from ascending, the state running on. By index: after `chunks_exact_mut` a proof knows the slice's
// length alone. (orders, n, m) are no struct here: call_genotypes' `Orders` is for reading, and is made once `first_bad_order` has found none; for writing
// it would hold a `&mut`, and each contract would have to name the loan.
pub fn write_orders(orders: &mut [u32], n: usize, m: usize, seed: u64)
    requires n_bound { n ≤ 1024 }
    requires n_value { m * n ≡ length orders.old }
    ensures { orders.new ≡ orders_from n m seed }
{
    let mut state = seed;
    for o in 0..m {
        state = shuffle_order(&mut orders[o * n..(o + 1) * n], state);
    }
}

// Whether an order is a permutation, with a mark for each variant. Marks below `mark` are of earlier orders.
fn is_permutation(order: &[u32], marks: &mut [usize], mark: usize) -> bool
    requires one_each { length order.now ≡ length marks.old }
    requires earlier { All (λ x. x < mark) marks.old }
    ensures answer { result ≡ permutes (length order.now) order.now }
    ensures marked { All (λ x. x ≤ mark) marks.new }
{
    for v in order {
        let v = *v as usize;
        if marks.len() <= v || marks[v] == mark {
            return false;
        }
        marks[v] = mark;
    }
    true
}

// The first of m orders that is no permutation; none where each is one. By index: n may be 0, which `chunks_exact` refuses. A loop: the closure of
// `first_fault` changes nothing, and this test marks.
pub fn first_bad_order(orders: &[u32], n: usize, m: usize) -> Option<usize>
    requires n_bound { n ≤ 1024 }
    requires n_value { m * n ≡ length orders.now }
    ensures { MatchOption result (first_bad_order n orders.now m ≡ m) (λ o. (o < m) × (o ≡ first_bad_order n orders.now m)) }
{
    let mut marks = [0usize; 1024];
    for o in 0..m {
        if !is_permutation(&orders[o * n..(o + 1) * n], &mut marks[..n], o + 1) {
            return Some(o);
        }
    }
    None
}
