use crate::creating::CreatingEntries;
use crate::trail::{Last, Loss, last_of};
use std::alloc::{AllocError, Global};
use vk_model::Point;
use vk_order::Byte;

/// So many times bytes are followed over a point at most.
const MOST_STEPS: u64 = 134_217_728;

/// That a command copied an undefined byte.
#[derive(Clone, Copy)]
pub struct Copied<'a> {
    /// The command.
    pub by: Point<'a>,
    /// The byte that it copied.
    pub from: Byte,
}

/// Why a byte is undefined.
#[derive(Drop)]
pub struct Undefined<'a> {
    /// The byte.
    pub byte: Byte,
    /// The copies that brought it there, the last one first.
    pub copies: Vec<Copied<'a>>,
    /// What made the byte that was copied first undefined, or the byte itself where none was
    /// copied, and at which point; where there is nothing, it was never written.
    pub loss: Option<(Loss, Point<'a>)>,
}

/// What following a byte back through copies came to.
#[derive(Drop)]
enum Followed<'a> {
    /// It is defined; so many walks over the points showed it.
    Defined(u64),
    /// It is undefined.
    Undefined(Undefined<'a>),
    /// It would have taken too many steps.
    TooLong,
}

/// Why a read after some points finds an undefined byte: the first one. None is reported where
/// following its bytes would take too many steps.
pub fn undefined_read<'a>(
    alloc: Global,
    points: &[Point<'a>],
    buffer: u32,
    offset: u64,
    size: u64,
) -> Result<Option<Undefined<'a>>, AllocError> {
    let creating = CreatingEntries::of(alloc, points)?;
    let count = points.len() as u64;
    let mut left = MOST_STEPS.checked_div(count).unwrap_or(0);
    for at in offset..offset.saturating_add(size) {
        let byte = Byte::Buffer { buffer, at };
        match undefined_byte(alloc, &creating, points, byte, left)? {
            Followed::Defined(walks) => left = left.saturating_sub(walks),
            Followed::Undefined(undefined) => return Ok(Some(undefined)),
            Followed::TooLong => return Ok(None),
        }
    }
    Ok(None)
}

/// Why a byte is undefined, if it is, with so many walks over the points at most.
fn undefined_byte<'a>(
    alloc: Global,
    creating: &CreatingEntries<'a>,
    points: &[Point<'a>],
    byte: Byte,
    most: u64,
) -> Result<Followed<'a>, AllocError> {
    let mut copies = Vec::new(alloc);
    let mut earlier = points;
    let mut next = None;
    let mut followed = byte;
    for walk in 0..most {
        let loss = match last_of(creating, earlier, next, followed) {
            Last::Written => return Ok(Followed::Defined(walk.saturating_add(1))),
            Last::Nothing => None,
            Last::Lost(loss, point) => Some((loss, point)),
            Last::Copied(number, from) => {
                let Some(by) = earlier.get(number) else {
                    return Ok(Followed::Defined(walk.saturating_add(1)));
                };
                copies.push(Copied { by: *by, from })?;
                next = Some(*by);
                earlier = &earlier[..number];
                followed = from;
                continue;
            }
        };
        return Ok(Followed::Undefined(Undefined { byte, copies, loss }));
    }
    Ok(Followed::TooLong)
}
