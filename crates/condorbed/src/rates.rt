// The six rates of a request.
use genotype_probs::Rates;
use protocol::input::{Reader, Unreadable};
use steps::LogProb;

// hom_snv het_snv hom_indel het_indel ts tv.
pub fn read_rates(reader: &mut Reader) -> Result<Rates, Unreadable> {
    let hom_snv = read_rate(reader)?;
    let het_snv = read_rate(reader)?;
    let hom_indel = read_rate(reader)?;
    let het_indel = read_rate(reader)?;
    let ts = read_rate(reader)?;
    let tv = read_rate(reader)?;
    Ok(Rates {
        hom_snv,
        het_snv,
        hom_indel,
        het_indel,
        ts,
        tv,
    })
}

// One rate, an i32, in steps.
fn read_rate(reader: &mut Reader) -> Result<LogProb, Unreadable> {
    let steps: i32 = reader.read()?;
    Ok(LogProb(i64::from(steps)))
}
