// Fisher-Yates: an order of the variants by the outputs of SplitMix64.
ghost use Rattle.std.specs.Prelude.{◌≡◌, ◌+◌, ◌-◌, ◌%◌, ◌^◌, ◌<◌, ◌≤◌, length};
ghost use Rattle.shuffle.specs.SplitMix.{mixed, state_after};
ghost use Rattle.shuffle.specs.Orders.{ascending, swapped, order_from};

use crate::splitmix::{mix, next_state};

// Writes 0, 1, 2, .. into the order.
#[tactic(auto, using(crate::proofs::Ascending::ascending_more), unfolding(crate::specs::Orders::ascending))]
fn write_ascending(order: &mut [u32])
    requires { length order.old < 2 ^ 32 }
    ensures { order.new ≡ ascending (length order.old) }
{
    for (i, entry) in order.iter_mut().enumerate() {
        *entry = i as u32;
    }
}

// The entries at i and j change places. By hand: the kit's `swap` branches on which of them is lower, and where an order is short a processor often guesses
// that wrong.
#[tactic(auto, unfolding(crate::specs::Orders::swapped))]
fn swap(order: &mut [u32], i: usize, j: usize)
    requires { (i < length order.old) × (j < length order.old) }
    ensures { order.new ≡ swapped order.old i j }
{
    let entry = order[i];
    order[i] = order[j];
    order[j] = entry;
}

// The place that position i swaps with: the output at the state mod (i + 1).
fn swap_place(state: u64, i: usize) -> usize
    requires { (0 < i) × (i < 2 ^ 32) }
    ensures { (result ≡ mixed state % (i + 1)) × (result ≤ i) }
{
    (mix(state) % (i as u64 + 1)) as usize
}

// Writes one order from ascending, and returns the state after it.
pub fn shuffle_order(order: &mut [u32], state: u64) -> u64
    requires { length order.old < 2 ^ 32 }
    ensures { (order.new ≡ order_from (length order.old) state) × (result ≡ state_after (length order.old - 1) state) }
{
    write_ascending(order);
    let mut s = state;
    for i in (1..order.len()).rev() {
        s = next_state(s);
        swap(order, i, swap_place(s, i));
    }
    s
}
