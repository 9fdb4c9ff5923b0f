ghost use Rattle.std.specs.Prelude.{◌≡◌, ◌||◌, ◌&&◌, ◌<◌, ◌%◌, ◌==◌, nat_le, not, IfSome, is_some};
ghost use Rattle.std.specs.Option.{ForSome};
ghost use Rattle.std.specs.List.{list_any};
ghost use Rattle.vk_model.specs.Basics.{holds};
ghost use Rattle.vk_model.specs.Rules.Ranges as rules;
ghost use Rattle.vk_model.specs.Trace.PointViews.{point_of};
ghost use Rattle.vk_history.specs.PointViews.{past};
ghost use Rattle.vk_rules.specs.Aligns.{IsAlign, IsMisaligned};
ghost use Rattle.vk_rules.specs.Inner.Aligns.{IsOff, IsOffLength, IsOffTexel, AreOffTexel};

use crate::formats::texel_of;
use crate::items::Item;
use vk_history::History;
use vk_model::{Action, BufferImageCopy, Cmd, Length, Point};

/// The bytes of a word.
const WORD: u64 = 4;

/// Which number of an item must be a multiple.
#[derive(Clone, Copy)]
pub enum AlignedNumber {
    /// Where it begins in its buffer, in bytes.
    Offset,
    /// How many bytes it has.
    Bytes,
}

/// Of what it must be a multiple.
#[derive(Clone, Copy)]
pub enum AlignUnit {
    /// Of a word of 4 bytes: for a fill and an update, and for a region on queues 2 and 3.
    Word,
    /// Of a texel of the image.
    Texel,
}

/// ALIGN: a number that isn't a multiple of its unit.
#[derive(Clone, Copy)]
pub struct Misaligned {
    /// The region, or the only item of a fill or an update.
    pub item: Item,
    /// Which of its numbers.
    pub number: AlignedNumber,
    /// The number, in bytes.
    pub value: u64,
    /// The unit.
    pub unit: AlignUnit,
    /// The bytes of the unit.
    pub multiple: u64,
}

/// ALIGN: a fill or an update that isn't of whole words, or a region whose buffer offset isn't of whole
/// texels, on queues 2 and 3 also of whole words.
pub fn breaks_align(history: &History<'_>, point: &Point<'_>) -> bool
    ensures { result ≡ rules.breaks_align (past history.now) (point_of point.now) }
{
    align_of(history, point).is_some()
}

/// ALIGN: the number of a point that isn't a multiple of its unit.
pub fn align_of(history: &History<'_>, point: &Point<'_>) -> Option<Misaligned>
    ensures broken { is_some result ≡ rules.breaks_align (past history.now) (point_of point.now) }
    ensures reported { IfSome result (IsAlign (past history.now) (point_of point.now)) }
{
    match point.action {
        Action::Run(command) => of_command(history, point.queue, command),
        _ => None,
    }
}

fn of_command(history: &History<'_>, queue: u32, command: &Cmd) -> Option<Misaligned>
    ensures broken { is_some result ≡ rules.misaligned (past history.now) queue command.now }
    ensures reported { IfSome result (IsMisaligned (past history.now) queue command.now) }
{
    match command {
        Cmd::Fill { offset, size, .. } => match off_word(AlignedNumber::Offset, *offset) {
            Some(found) => Some(found),
            None => of_length(*size),
        },
        Cmd::Update { offset, bytes, .. } => match off_word(AlignedNumber::Offset, *offset) {
            Some(found) => Some(found),
            None => off_word(AlignedNumber::Bytes, bytes.len() as u64),
        },
        Cmd::CopyIn { image, regions, .. } => of_regions(
            history,
            queue,
            *image,
            regions.as_slice(),
        ),
        Cmd::CopyOut { image, regions, .. } => of_regions(
            history,
            queue,
            *image,
            regions.as_slice(),
        ),
        _ => None,
    }
}

fn off_word(number: AlignedNumber, value: u64) -> Option<Misaligned>
    ensures broken { is_some result ≡ rules.off_4 value }
    ensures reported { IfSome result (IsOff number value) }
{
    if value % WORD != 0 {
        Some(Misaligned {
            item: Item::Only,
            number,
            value,
            unit: AlignUnit::Word,
            multiple: WORD,
        })
    } else {
        None
    }
}

fn of_length(size: Length) -> Option<Misaligned>
    ensures broken { is_some result ≡ rules.off_4_length size }
    ensures reported { IfSome result (IsOffLength size) }
{
    match size {
        Length::Bytes(bytes) => off_word(AlignedNumber::Bytes, bytes),
        Length::Whole => None,
    }
}

fn of_regions(
    history: &History<'_>,
    queue: u32,
    image_id: u32,
    regions: &[BufferImageCopy],
) -> Option<Misaligned>
    ensures broken { is_some result ≡ list_any (rules.off_texel (past history.now) queue image_id) regions.now }
    ensures reported { IfSome result (AreOffTexel (past history.now) queue image_id regions.now) }
{
    let texel = texel_of(history, image_id);
    for (index, region) in regions.iter().enumerate() {
        if let Some(found) = of_region(texel, queue, index, region.buffer_offset) {
            return Some(found);
        }
    }
    None
}

/// The offset of a region, where it isn't a multiple of a texel, or on queues 2 and 3 of a word.
fn of_region(texel: Option<u32>, queue: u32, index: usize, offset: u64) -> Option<Misaligned>
    requires { ForSome texel (λ t. 0 < t) }
    ensures broken { is_some result ≡ (holds texel (λ t. not (offset % t == 0)) || nat_le 2 queue && rules.off_4 offset) }
    ensures reported { IfSome result (IsOffTexel texel queue index offset) }
{
    let misaligned = Misaligned {
        item: Item::Region(index),
        number: AlignedNumber::Offset,
        value: offset,
        unit: AlignUnit::Word,
        multiple: WORD,
    };
    match texel {
        Some(texel) if offset % u64::from(texel) != 0 => Some(Misaligned {
            unit: AlignUnit::Texel,
            multiple: u64::from(texel),
            ..misaligned
        }),
        _ if queue >= 2 && offset % WORD != 0 => Some(misaligned),
        _ => None,
    }
}
