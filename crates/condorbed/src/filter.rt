// `filter`: `<words i32>` `<bases u8>` `<quals f64>` density_qual density_dist density_count
// max_depth `[filters u8]`.
use crate::answers::first_line;
use crate::arrays::{Fill, ONES};
use crate::requests::Request;
use protocol::input::{Reader, Unreadable};
use steps::PHREDProb;
use var_filter::DensityParameters;

// The answer to the request.
#[inline(never)]
pub fn answer(request: Request<'_>) -> Result<(), Unreadable> {
    let Request {
        reader,
        output,
        words,
        bases,
    } = request;
    let mut quals = [0.0; ONES];
    let mut filters = [u8::FILL; ONES];
    let quals = reader.slice(&mut quals)?;
    let density = read_density(reader)?;
    let max_depth = reader.read()?;
    let filters = reader.front(&mut filters)?;
    let answer = var_filter::var_filter(words, bases, quals, density, max_depth, filters);
    first_line(output, answer);
    output.line(filters);
    Ok(())
}

// density_qual density_dist density_count.
fn read_density(reader: &mut Reader) -> Result<DensityParameters, Unreadable> {
    let gq = PHREDProb(reader.read()?);
    let len = reader.read()?;
    let n = reader.read()?;
    Ok(DensityParameters { n, len, gq })
}
