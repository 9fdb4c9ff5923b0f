ghost use Rattle.std.specs.Prelude.{◌≡◌, ◌<◌, IfSome, is_some};
ghost use Rattle.std.specs.Option.{option_map};
ghost use Rattle.vk_model.specs.Trace.Image.{texel};
ghost use Rattle.vk_model.specs.Trace.Objects as objects;
ghost use Rattle.vk_model.specs.Rules.Ranges as rules;
ghost use Rattle.vk_model.specs.Trace.PointViews.{action_of, point_of};
ghost use Rattle.vk_history.specs.PointViews.{past};
ghost use Rattle.vk_rules.specs.Formats.{IsFormat};
ghost use Rattle.vk_rules.specs.Inner.Formats.{texels_differ, AreOtherTexels};

use vk_history::History;
use vk_image_tiles::texel_size;
use vk_model::{Action, Cmd, Point};

/// FORMAT: the texels of the two images of a copy, which are of other sizes.
#[derive(Clone, Copy)]
pub struct OtherTexels {
    /// The id of the image that is read.
    pub source: u32,
    /// The id of the image that is written.
    pub destination: u32,
    /// The bytes of a texel of the image that is read.
    pub source_texel: u32,
    /// The bytes of a texel of the image that is written.
    pub destination_texel: u32,
}

/// FORMAT: the texel sizes of an image copy differ.
pub fn breaks_format(history: &History<'_>, point: &Point<'_>) -> bool
    ensures { result ≡ rules.breaks_format (past history.now) (point_of point.now) }
{
    format_of(history, point).is_some()
}

/// FORMAT: the sizes of the texels that a point copies, where they differ.
pub fn format_of(history: &History<'_>, point: &Point<'_>) -> Option<OtherTexels>
    ensures broken { is_some result ≡ rules.breaks_format (past history.now) (point_of point.now) }
    ensures reported { IfSome result (IsFormat (past history.now) (action_of point.now.action)) }
{
    match point.action {
        Action::Run(
            Cmd::CopyImage {
                source,
                destination,
                ..
            },
        ) => of_copy(history, *source, *destination),
        _ => None,
    }
}

fn of_copy(history: &History<'_>, source: u32, destination: u32) -> Option<OtherTexels>
    ensures broken { is_some result ≡ texels_differ (past history.now) source destination }
    ensures reported { IfSome result (AreOtherTexels (past history.now) source destination) }
{
    let source_texel = texel_of(history, source)?;
    let destination_texel = texel_of(history, destination)?;
    if source_texel == destination_texel {
        None
    } else {
        Some(OtherTexels {
            source,
            destination,
            source_texel,
            destination_texel,
        })
    }
}

/// The bytes of a texel of an image.
pub fn texel_of(history: &History<'_>, image: u32) -> Option<u32>
    ensures texel { result ≡ option_map (λ m. texel m.format) (objects.image (past history.now) image) }
    ensures above { IfSome result (λ t. 0 < t) }
{
    let info = history.image(image)?;
    Some(texel_size(info.format))
}
