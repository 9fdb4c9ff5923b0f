use super::expect::expect;
use std::process::Abort;
use std::test::Fail;
use vk_image_tiles::{
    Row, Run, Shape, level_height, level_size, level_width, row_pitch, texel_size,
};
use vk_model::{Format, ImageInfo, Kind, Need, Place, Rule, Sharing, SubresourceLayout, Usage};

/// An image of 16-bit texels, 9 by 5, of one level and one layer.
const TILED: ImageInfo = ImageInfo {
    format: Format::R16Uint,
    width: 9,
    height: 5,
    levels: 1,
    layers: 1,
    tiling: Kind::Optimal,
    usage: Usage(3),
    sharing: Sharing::Exclusive,
    place: Place::Dedicated { memory_type: 0 },
};

/// The same, row after row.
const LINEAR: ImageInfo = ImageInfo {
    tiling: Kind::Linear,
    ..TILED
};

/// An image of texels of 4 bytes, with 4 tiles in level 0, which are 1,024 bytes, and 1 in each other
/// level.
const LEVELS: ImageInfo = ImageInfo {
    format: Format::R8G8B8A8Uint,
    width: 16,
    height: 16,
    levels: 5,
    layers: 3,
    ..TILED
};

/// The bytes of a layer of that image.
const LAYER: u64 = 2_048;

/// The address of a texel, where the image has it.
fn address_of(image: &ImageInfo, texel: (u32, u32, u32, u32)) -> Option<u64> {
    let (level, layer, x, y) = texel;
    let shape = Shape::of(image).ok()?;
    if level >= image.levels
        || layer >= image.layers
        || x >= level_width(image, level)
        || y >= level_height(image, level)
    {
        return None;
    }
    Some(shape.address(level, layer, x, y))
}

/// Texels, each with its level, its layer, x and y, and their addresses.
static ADDRESSES: [(ImageInfo, (u32, u32, u32, u32), u64); 4] = [
    (TILED, (0, 0, 3, 4), 74),
    (TILED, (0, 0, 8, 4), 192),
    (LINEAR, (0, 0, 3, 4), 262),
    (LEVELS, (3, 2, 1, 1), 2 * LAYER + 1_536 + 12),
];

#[test]
fn addresses(rt: HostRuntime) {
    for (image, texel, address) in &ADDRESSES {
        expect(&rt, *address, address_of(image, *texel), Some(*address));
    }
}

/// Images, with the layout of a level and layer, and what the image asks of its memory.
static LAYOUTS: [(ImageInfo, u32, u32, SubresourceLayout, Need); 3] = [
    (
        TILED,
        0,
        0,
        SubresourceLayout {
            offset: 0,
            size: 256,
            row_pitch: 0,
        },
        Need {
            size: 256,
            align: 256,
            types: 1,
        },
    ),
    (
        LINEAR,
        0,
        0,
        SubresourceLayout {
            offset: 0,
            size: 320,
            row_pitch: 64,
        },
        Need {
            size: 320,
            align: 64,
            types: 7,
        },
    ),
    (
        LEVELS,
        3,
        2,
        SubresourceLayout {
            offset: 2 * LAYER + 1_536,
            size: 256,
            row_pitch: 0,
        },
        Need {
            size: 3 * LAYER,
            align: 256,
            types: 1,
        },
    ),
];

fn shape_of(image: &ImageInfo) -> Result<Shape, Rule> {
    let ImageInfo {
        format,
        width,
        height,
        levels,
        layers,
        tiling,
        ..
    } = *image;
    Shape::new(format, width, height, levels, layers, tiling)
}

#[test]
fn layouts(rt: HostRuntime) -> Result<(), Fail> {
    for (number, (image, level, layer, layout, need)) in LAYOUTS.iter().enumerate() {
        let shape = shape_of(image)?;
        let there = shape.image();
        assert!(rt; *level < there.levels && *layer < there.layers);
        expect(
            &rt,
            number,
            shape.subresource_layout(*level, *layer),
            *layout,
        );
        expect(&rt, number, shape.requirements(), *need);
    }
    Ok(())
}

#[test]
fn levels(rt: HostRuntime) {
    let sizes = (
        level_width(&LEVELS, 3),
        level_height(&LEVELS, 9),
        level_size(&LEVELS, 0),
        row_pitch(&LEVELS),
        texel_size(LEVELS.format),
    );
    expect(&rt, "sizes", sizes, (2, 1, 1_024, 64, 4));
}

/// Two linear levels, no rows, five levels of a width of nine, and too many bytes.
static REFUSED: [(ImageInfo, Rule); 4] = [
    (
        ImageInfo {
            levels: 2,
            ..LINEAR
        },
        Rule::Size,
    ),
    (
        ImageInfo {
            format: Format::R8Uint,
            height: 0,
            ..TILED
        },
        Rule::Size,
    ),
    (
        ImageInfo {
            format: Format::R8Uint,
            levels: 5,
            ..TILED
        },
        Rule::Size,
    ),
    (
        ImageInfo {
            format: Format::R32G32B32A32Uint,
            width: 4_096,
            height: 4_096,
            ..TILED
        },
        Rule::MemorySize,
    ),
];

#[test]
fn images_refused(rt: HostRuntime) {
    for (number, (image, rule)) in REFUSED.iter().enumerate() {
        expect(&rt, number, shape_of(image).err(), Some(*rule));
    }
}

/// A row of the first level and layer, where the image has it.
fn row_of(image: &ImageInfo, y: u32) -> Option<Row> {
    let shape = Shape::of(image).ok()?;
    if image.levels == 0 || image.layers == 0 || y >= level_height(image, 0) {
        return None;
    }
    Some(shape.row(0, 0, y))
}

/// What lies side by side in row 4, from a texel up to another. Of the tiled image texels 2 and 3 have
/// the numbers 36 and 37 in their tile, and texel 4 the number 48.
static RUNS: [(ImageInfo, u32, u32, Run); 4] = [
    (TILED, 2, 9, Run { at: 72, texels: 2 }),
    (TILED, 2, 3, Run { at: 72, texels: 1 }),
    (TILED, 3, 9, Run { at: 74, texels: 1 }),
    (LINEAR, 2, 9, Run { at: 260, texels: 7 }),
];

#[test]
fn runs_of_rows(rt: HostRuntime) -> Result<(), Fail> {
    for (number, (image, start, end, run)) in RUNS.iter().enumerate() {
        let row = row_of(image, 4).ok_or("no row")?;
        assert!(rt; *start < *end);
        expect(&rt, number, row.run(*start, *end), *run);
    }
    for (image, x, address) in [(TILED, 4, 96), (LINEAR, 3, 262)] {
        let row = row_of(&image, 4).ok_or("no row")?;
        expect(&rt, address, row.address(x), address);
    }
    Ok(())
}
