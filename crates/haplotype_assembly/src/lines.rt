// The bytes of fragment lines, written into a buffer. A function that writes takes the place to write at, and returns the place after what it
// wrote: a struct with the buffer and the place is no plainer, since each contract would have to say too that the buffer lent is the same.
ghost use Rattle.std.specs.Prelude.{[], ◌∷◌, ◌++◌, map, ◌≡◌, ◌+◌, ◌≤◌, ◌<◌, length};
ghost use Rattle.std.proofs.lemmas.List.Edits.{sets};
ghost use Rattle.variants_and_fragments.specs.Inner.Case.{All};
ghost use Rattle.variants_and_fragments.specs.Inner.Sums.{DownTo};
ghost use Rattle.pileup.specs.Inner.Packed.{unpacked, RowIn};
ghost use Rattle.haplotype_assembly.specs.Lines.{digit, block_start, allele_bytes, call_quality, strand_byte};
ghost use Rattle.haplotype_assembly.specs.Inner.LinesRead.{Put, call_of, shown_calls, shown_fragment, shown_fragments, header_of, line_with, fragment_line, has_one, lines_over};

use crate::Counted;
use crate::flist::{Flist, ShownCalls};
use crate::numbers::write_number;
use pileup::row::Row;
use steps::phred::{phred, quality_byte};
use variants_and_fragments::CaseWords;
use variants_and_fragments::layout::direction_of;

// ---- the alleles

// Opens a block at variant v where v does not go on with the one before.
#[tactic(auto, using(crate::proofs::Pieces::new_length))]
pub fn open_block(next: usize, v: usize, buffer: &mut [u8], at: usize) -> usize
    requires { (v < 1024) × (at + length (block_start next v) ≤ length buffer.old) }
    ensures { Put buffer.old buffer.new at result (block_start next v) }
{
    if v == next {
        return at;
    }
    buffer[at] = b' ';
    let end = write_number(buffer, at + 1, v + 1);
    buffer[end] = b' ';
    end + 1
}

// Writes the allele of a call at v.
pub fn write_call(next: usize, v: usize, allele: usize, buffer: &mut [u8], at: usize) -> usize
    requires v_bound { (v < 1024) × (allele < 3) }
    requires allele_in_bounds { at + length (block_start next v ++ (digit allele ∷ [])) ≤ length buffer.old }
    ensures { Put buffer.old buffer.new at result (block_start next v ++ (digit allele ∷ [])) }
{
    let start = open_block(next, v, buffer, at);
    buffer[start] = b'0' + allele as u8;
    start + 1
}

// Writes the alleles of the calls; `next` goes on with the block before them.
pub fn write_alleles(shown: ShownCalls<'_>, mut next: usize, buffer: &mut [u8], at: usize) -> usize
    requires { at + length (allele_bytes next shown) ≤ length buffer.old }
    ensures { Put buffer.old buffer.new at result (allele_bytes next shown.entry) }
{
    let mut end = at;
    for row in shown {
        end = write_call(next, row.variant, row.allele, buffer, end);
        next = row.variant + 1;
    }
    end
}

// ---- the qualities

// The quality byte of a call.
#[tactic(auto, using(crate::proofs::Qualities::quality_log, crate::proofs::Qualities::quality_small), unfolding(crate::specs::Lines::call_quality))]
pub fn quality_of(row: Row) -> u8
    requires { DownTo 262144 row.qual.0 }
    ensures { result ≡ call_quality (call_of row) }
{
    quality_byte(phred(row.qual))
}

// Writes the quality bytes of the calls. `end` is counted beside the calls, for it is answered: where `zip` or `enumerate` counts, the place is gone
// with the loop.
pub fn write_qualities(shown: ShownCalls<'_>, buffer: &mut [u8], at: usize) -> usize
    requires { at + length (map call_quality shown) ≤ length buffer.old }
    ensures { Put buffer.old buffer.new at result (map call_quality shown.entry) }
{
    let mut end = at;
    for row in shown {
        buffer[end] = quality_of(row);
        end += 1;
    }
    end
}

// ---- a line

// What a line starts with: the number of its blocks, its id and its fragment's strand. The strand is the case's own word, asked once, for its byte:
// an enum would be made of it and matched at once.
#[derive(Clone, Copy)]
pub struct Head {
    pub blocks: usize,
    pub id: usize,
    pub strand: usize,
}

// The byte of a strand: '+' where it is a reverse one. The direction is a number, as the place of a count is reckoned from it (late_reads), so that an
// enum would be turned back there.
#[tactic(auto, unfolding(crate::specs::Lines::strand_byte))]
pub fn strand_byte(strand: usize) -> u8
    ensures { result ≡ strand_byte strand }
{
    if direction_of(strand) == 0 {
        b'-'
    } else {
        b'+'
    }
}

// Writes the number of blocks, the id and the strand.
#[tactic(auto, using(crate::proofs::Pieces::header_length))]
pub fn write_header(head: Head, buffer: &mut [u8], at: usize) -> usize
    requires { at + length (header_of head) ≤ length buffer.old }
    ensures { Put buffer.old buffer.new at result (header_of head) }
{
    let end = write_number(buffer, at, head.blocks);
    buffer[end] = b' ';
    let end2 = write_number(buffer, end + 1, head.id);
    buffer[end2] = b':';
    buffer[end2 + 1] = strand_byte(head.strand);
    end2 + 2
}

// Writes the line of some rows of the case.
pub fn write_line(
    case: &CaseWords<'_>,
    rows: &[u64],
    head: Head,
    buffer: &mut [u8],
    at: usize,
) -> usize
    requires rows_in { All (RowIn case.now.laid.sizes.n case.now.laid.sizes.f) (map unpacked rows.now) }
    requires in_bounds { at + length (line_with case.now.laid.sizes.n head (shown_calls case.now.laid.words.now (map unpacked rows.now))) ≤ length buffer.old }
    ensures { Put buffer.old buffer.new at result (line_with case.now.laid.sizes.n head (shown_calls case.now.laid.words.now (map unpacked rows.now))) }
{
    let alleles = write_header(head, buffer, at);
    let space = write_alleles(
        ShownCalls::new(*case, rows),
        case.laid.sizes.n,
        buffer,
        alleles,
    );
    buffer[space] = b' ';
    let last = write_qualities(ShownCalls::new(*case, rows), buffer, space + 1);
    buffer[last] = 0;
    last + 1
}

impl Flist<'_> {
    // Writes fragment f's line.
    pub fn write_line(&self, f: usize, head: Head, buffer: &mut [u8], at: usize) -> usize
        requires in_case { f < self.now.case.laid.sizes.f }
        requires in_bounds { at + length (line_with self.now.case.laid.sizes.n head (shown_fragment self.now.case.laid.words.now self.now.case.laid.sizes self.now.rows.words.now self.now.rows.ends.now f).calls) ≤ length buffer.old }
        ensures { Put buffer.old buffer.new at result (line_with self.now.case.laid.sizes.n head (shown_fragment self.now.case.laid.words.now self.now.case.laid.sizes self.now.rows.words.now self.now.rows.ends.now f).calls) }
    {
        write_line(&self.case, self.words(f), head, buffer, at)
    }

    // ---- all fragments

    // Writes fragment f's line, where it has one, after those counted.
    pub fn write_fragment(&self, f: usize, buffer: &mut [u8], counted: Counted) -> Counted
        requires in_case { (f < self.now.case.laid.sizes.f) × (counted.lines ≤ f) }
        requires in_bounds { counted.bytes + length (fragment_line self.now.case.laid.sizes.n self.now.single counted.lines (shown_fragment self.now.case.laid.words.now self.now.case.laid.sizes self.now.rows.words.now self.now.rows.ends.now f)) ≤ length buffer.old }
        ensures put { Put buffer.old buffer.new counted.bytes result.bytes (fragment_line self.now.case.laid.sizes.n self.now.single counted.lines (shown_fragment self.now.case.laid.words.now self.now.case.laid.sizes self.now.rows.words.now self.now.rows.ends.now f)) }
        ensures lines { result.lines ≡ counted.lines + has_one self.now.single (shown_fragment self.now.case.laid.words.now self.now.case.laid.sizes self.now.rows.words.now self.now.rows.ends.now f) }
    {
        let tally = self.tally(f);
        if !self.has_line(tally.calls) {
            return counted;
        }
        let head = Head {
            blocks: tally.blocks,
            id: counted.lines,
            strand: self.case.laid.strand(f),
        };
        let bytes = self.write_line(f, head, buffer, counted.bytes);
        Counted {
            bytes,
            lines: counted.lines + 1,
        }
    }

    // Writes all lines, from the start of the buffer on.
    pub fn write(&self, buffer: &mut [u8])
        requires { length (lines_over self.now.case.laid.sizes.n self.now.single 0 (shown_fragments self.now.case.laid.words.now self.now.case.laid.sizes self.now.rows.words.now self.now.rows.ends.now)) ≤ length buffer.old }
        ensures { buffer.new ≡ sets buffer.old 0 (lines_over self.now.case.laid.sizes.n self.now.single 0 (shown_fragments self.now.case.laid.words.now self.now.case.laid.sizes self.now.rows.words.now self.now.rows.ends.now)) }
    {
        let mut counted = Counted { bytes: 0, lines: 0 };
        for f in 0..self.case.laid.sizes.f {
            counted = self.write_fragment(f, buffer, counted);
        }
    }
}
