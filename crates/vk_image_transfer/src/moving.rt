ghost use Rattle.std.specs.Prelude.{◌≡◌, ◌+◌, ◌*◌, ◌<◌, ◌≤◌, ℕ, length, slice_index};
ghost use Rattle.vk_image_transfer.specs.Inner.Lines.{line_place, pairs_copied, LineFits, LineApart};
ghost use Rattle.vk_image_transfer.specs.Rows.{AreWritten, RowsApart};

use crate::colors::COLORED;
use crate::lines::Line;
use vk_heap::Region;

/// The texels of four pairs.
const PAIRED: u32 = 8;

/// Copies the first texels of a line of one region to a line of another.
pub(crate) fn copy_texels(
    source: &Region,
    from: &Line,
    destination: &mut Region,
    to: &Line,
    texels: u32,
    texel: u64,
)
    requires some { 0 < texel }
    requires read { LineFits from.now texels texel (length source.now) }
    requires room { LineFits to.now texels texel (length destination.old) }
    requires apart { LineApart to.now texels texel }
    ensures { AreWritten destination.old destination.new texels texel (line_place to.now) (λ x p. slice_index source.now (line_place from.now x + p)) }
{
    // A region's size is a whole number of 64 bits, so the places in it are too.
    let _sizes = (source.size(), destination.size());
    let mut x = 0;
    while x < texels {
        if texels - x >= PAIRED
            && let Some(reads) = from.pairs(x)
            && let Some(writes) = to.pairs(x)
        {
            copy_pairs(source, &reads, destination, &writes, 2 * texel);
            x += PAIRED;
        } else {
            let read = from.together(x, texels);
            let written = to.together(x, x + read.texels);
            let size = u64::from(written.texels) * texel;
            source.copy_between(read.at, destination, written.at, size);
            x += written.texels;
        }
    }
}

/// Copies four pairs of texels, which have so many bytes each, from where they begin to where they
/// begin.
fn copy_pairs(
    source: &Region,
    reads: &[u64; 4],
    destination: &mut Region,
    writes: &[u64; 4],
    size: u64,
)
    requires read { (k : ℕ) → k < 4 → slice_index reads.now k + size ≤ length source.now }
    requires room { (k : ℕ) → k < 4 → slice_index writes.now k + size ≤ length destination.old }
    ensures { destination.new ≡ pairs_copied source.now reads.now writes.now size destination.old }
{
    source.copy_between(reads[0], destination, writes[0], size);
    source.copy_between(reads[1], destination, writes[1], size);
    source.copy_between(reads[2], destination, writes[2], size);
    source.copy_between(reads[3], destination, writes[3], size);
}

/// Copies the first texels of a line to another line of the same region, which shares none of their
/// bytes.
pub(crate) fn copy_texels_within(
    region: &mut Region,
    from: &Line,
    to: &Line,
    texels: u32,
    texel: u64,
)
    requires some { 0 < texel }
    requires read { LineFits from.now texels texel (length region.old) }
    requires room { LineFits to.now texels texel (length region.old) }
    requires apart { LineApart to.now texels texel }
    requires lines_apart { RowsApart texels texel (line_place from.now) (line_place to.now) }
    ensures { AreWritten region.old region.new texels texel (line_place to.now) (λ x p. slice_index region.old (line_place from.now x + p)) }
{
    // A region's size is a whole number of 64 bits, so the places in it are too.
    let _size = region.size();
    let mut x = 0;
    while x < texels {
        let read = from.together(x, texels);
        let written = to.together(x, x + read.texels);
        let size = u64::from(written.texels) * texel;
        region.copy_within(read.at, written.at, size);
        x += written.texels;
    }
}

/// Writes the first texels of a line, each with the bytes of a color. They stand in `color` one
/// texel after another.
pub(crate) fn fill_texels(
    region: &mut Region,
    to: &Line,
    texels: u32,
    texel: u64,
    color: &[u8; COLORED],
)
    requires some { 0 < texel }
    requires few { texel ≤ 64 }
    requires room { LineFits to.now texels texel (length region.old) }
    requires apart { LineApart to.now texels texel }
    requires repeats { (x p : ℕ) → p < texel → x * texel + p < 64 → slice_index color.now (x * texel + p) ≡ slice_index color.now p }
    ensures { AreWritten region.old region.new texels texel (line_place to.now) (λ x p. slice_index color.now p) }
{
    // A region's size is a whole number of 64 bits, so the places in it are too.
    let _size = region.size();
    let most = (COLORED as u64 / texel) as u32;
    let mut x = 0;
    while x < texels {
        let run = to.together(x, texels);
        let count = run.texels.min(most);
        let size = u64::from(count) * texel;
        region.write(run.at, &color[..size as usize]);
        x += count;
    }
}
