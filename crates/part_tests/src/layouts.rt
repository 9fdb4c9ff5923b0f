use super::expect::expect;
use std::alloc::{AllocError, Global};
use std::process::Abort;
use std::test::Fail;
use vk_layouts::{Layouts, Owner, Transfer};
use vk_model::{
    Accesses, BufferElement, Dependency, Element, Families, Layout, Length, Rule, Stages,
    SubresourceRange,
};

/// All of an image with 3 levels and 2 layers.
const ALL: SubresourceRange = SubresourceRange {
    first_level: 0,
    levels: 3,
    first_layer: 0,
    layers: 2,
};

/// Layer 1 of its level 1.
const ONE: SubresourceRange = SubresourceRange {
    first_level: 1,
    levels: 1,
    first_layer: 1,
    layers: 1,
};

/// Layouts by their numbers.
const UNDEFINED: u32 = 0;

const GENERAL: u32 = 1;

const TRANSFER_DST_OPTIMAL: u32 = 7;

/// What is done with the layouts of an image, or asked of them.
enum Step {
    /// A range goes to a layout.
    Transition(SubresourceRange, u32),
    /// Whether a range is in a layout.
    IsIn(SubresourceRange, u32, bool),
    /// The layout of a level's layer.
    Current(u32, u32, u32),
}

use Step::{Current, IsIn, Transition};

static OF_LEVELS_AND_LAYERS: [Step; 8] = [
    IsIn(ALL, UNDEFINED, true),
    Transition(ALL, GENERAL),
    Transition(ONE, TRANSFER_DST_OPTIMAL),
    Current(1, 1, TRANSFER_DST_OPTIMAL),
    Current(1, 0, GENERAL),
    Current(2, 1, GENERAL),
    IsIn(ONE, TRANSFER_DST_OPTIMAL, true),
    IsIn(ALL, GENERAL, false),
];

/// What an image doesn't have is UNDEFINED.
static BEYOND_AN_IMAGE: [Step; 4] = [
    IsIn(ALL, UNDEFINED, true),
    Current(2, 0, UNDEFINED),
    Transition(ONE, GENERAL),
    IsIn(ALL, GENERAL, false),
];

/// Does these steps on an image of two layers, and expects what they say.
fn follow(rt: &impl Abort, alloc: Global, levels: u32, steps: &[Step]) -> Result<(), AllocError> {
    let mut layouts = Layouts::new(alloc, levels, 2)?;
    follow_steps(rt, &mut layouts, steps);
    Ok(())
}

fn follow_steps(rt: &impl Abort, layouts: &mut Layouts, steps: &[Step]) {
    for (number, step) in steps.iter().enumerate() {
        match step {
            Transition(range, layout) => {
                assert!(rt; layouts.has(range));
                layouts.transition(range, Layout::new(*layout));
            }
            IsIn(range, layout, holds) => {
                expect(
                    rt,
                    number,
                    layouts.is_in(range, Layout::new(*layout)),
                    *holds,
                );
            }
            Current(level, layer, layout) => {
                expect(rt, number, layouts.current(*level, *layer).code(), *layout);
            }
        }
    }
}

#[test]
fn layouts(rt: HostRuntime) -> Result<(), Fail> {
    follow(&rt, rt.alloc(), 3, &OF_LEVELS_AND_LAYERS)?;
    follow(&rt, rt.alloc(), 2, &BEYOND_AN_IMAGE)?;
    Ok(())
}

/// A transfer of a buffer from a family to another.
fn transfer(source: u32, destination: u32) -> Element {
    Element::Buffer(BufferElement {
        dependency: Dependency {
            source_stages: Stages::TRANSFER,
            source_accesses: Accesses::TRANSFER_WRITE,
            destination_stages: Stages::TRANSFER,
            destination_accesses: Accesses::TRANSFER_WRITE,
        },
        families: Families {
            source,
            destination,
        },
        buffer: 1,
        offset: 0,
        size: Length::Whole,
    })
}

#[test]
fn a_transfer_of_ownership(rt: HostRuntime) {
    let to_one = transfer(0, 1);
    let from_two = transfer(2, 1);
    let pair = Rule::OwnerPair;
    let mut owner = Owner::Nobody;
    expect(&rt, "a first use", owner.use_on(0), false);
    expect(&rt, "no release", owner.acquire(1, &to_one), Err(pair));
    expect(&rt, "a release", owner.release(0, &to_one, 7), Ok(false));
    expect(&rt, "two", owner.release(0, &to_one, 8), Err(pair));
    expect(&rt, "another one", owner.acquire(1, &from_two), Err(pair));
    expect(&rt, "its acquire", owner.acquire(1, &to_one), Ok(7));
    assert_eq!(rt; owner, Owner::Family(1));
    expect(&rt, "another's use", owner.use_on(0), true);
}

#[test]
fn halves_of_a_transfer(rt: HostRuntime) {
    let families = Families {
        source: 0,
        destination: 1,
    };
    let halves = [
        Transfer::of(0, families),
        Transfer::of(1, families),
        Transfer::of(2, families),
    ];
    let wanted = [Transfer::Release, Transfer::Acquire, Transfer::Neither];
    expect(&rt, "halves", halves, wanted);
}
