// `orders`: `<words i32>` `<bases u8>` seed (u64) `[orders u32]`.
use crate::answers::first_line;
use crate::arrays::{Fill, ORDERS};
use crate::requests::Request;
use protocol::input::Unreadable;

// The answer to the request.
#[inline(never)]
pub fn answer(request: Request<'_>) -> Result<(), Unreadable> {
    let Request {
        reader,
        output,
        words,
        bases,
    } = request;
    let mut orders = [u32::FILL; ORDERS];
    let seed = reader.read()?;
    let orders = reader.front(&mut orders)?;
    let answer = shuffle::sweep_orders(words, bases, seed, orders);
    first_line(output, answer);
    output.line(orders);
    Ok(())
}
