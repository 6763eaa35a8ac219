// The orders of a case's variants.
ghost use Rattle.exports.specs.Promises.{SweepOrders};

use crate::answers::Answer;
use shuffle::sweep_orders;

// `sweep_orders`.
#[unsafe(no_mangle)]
pub extern "C" fn condorbed_sweep_orders(
    words: &[i32],
    bases: &[u8],
    seed: u64,
    orders: &mut [u32],
) -> Answer
    ensures { SweepOrders words.now bases.now seed orders.old result orders.new }
{
    Answer::from(sweep_orders(words, bases, seed, orders))
}
