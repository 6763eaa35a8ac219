// Sweep orders: the operation `sweep_orders`, and the check of lent orders (document 01, section 7, refusal 8).
#![tactic(auto)]

ghost use Rattle.std.specs.Prelude.{◌≡◌, ◌≤◌};
ghost use Rattle.variants_and_fragments.specs.Refusals.{outcome_of};
ghost use Rattle.shuffle.specs.Answers.{orders_outcome, SweepOrders};
ghost use Rattle.shuffle.specs.Inner.Answers.{checked_as};

use crate::orders::{first_bad_order, order_count, write_orders};
use variants_and_fragments::{Refusal, check_case};

mod fisher_yates;
mod orders;
pub mod splitmix;

// The check of the orders of a run over n variants: their number, or refusal 8 with its place.
pub fn check_orders(orders: &[u32], n: usize) -> Result<usize, Refusal>
    requires { n ≤ 1024 }
    ensures { checked_as result ≡ orders_outcome n orders.now }
{
    let m = order_count(n, orders.len()).ok_or(Refusal::Orders(0))?;
    match first_bad_order(orders, n, m) {
        Some(o) => Err(Refusal::Orders(o)),
        None => Ok(m),
    }
}

// Fills the slice with orders of the case's variants, one after the other, from the seed as first state.
pub fn sweep_orders(
    words: &[i32],
    bases: &[u8],
    seed: u64,
    orders: &mut [u32],
) -> Result<(), Refusal>
    ensures { SweepOrders words.now bases.now seed orders.old (outcome_of result) orders.new }
{
    let case = check_case(words, bases)?;
    let n = case.laid.sizes.n;
    let m = order_count(n, orders.len()).ok_or(Refusal::Orders(0))?;
    write_orders(orders, n, m, seed);
    Ok(())
}
