use crate::creating::CreatingEntries;
use crate::origins::{Origin, has_texel, origin_of};
use vk_model::{Action, Cmd, Element, Entry, ImageElement, Point};
use vk_order::{Act, Byte, is_acquire, is_release};

/// What made a byte undefined.
#[derive(Clone, Copy)]
pub enum Loss {
    /// A queue family used the resource while another one owned it, or had released it.
    Family {
        /// The family that used it.
        user: u32,
        /// The other one.
        owner: u32,
    },
    /// A layout transition from UNDEFINED.
    Transition,
    /// An invalidation, before what the host had written was flushed.
    Invalidation,
}

/// What was done last to the value of a byte.
#[derive(Clone, Copy)]
pub enum Last<'a> {
    /// Nothing.
    Nothing,
    /// It was written.
    Written,
    /// It was lost at a point.
    Lost(Loss, Point<'a>),
    /// A command copied it from another byte; the number of the command's point.
    Copied(usize, Byte),
}

/// What is followed of one byte.
#[derive(Clone, Copy)]
struct Trail<'a> {
    byte: Byte,
    is_exclusive: bool,
    is_cached: bool,
    owner: Option<u32>,
    is_dirty: bool,
    last: Last<'a>,
}

/// What was done last to the value of a byte, by some points; and, where a command comes next, by its
/// use of the byte's resource.
pub fn last_of<'a>(
    creating: &CreatingEntries<'a>,
    points: &[Point<'a>],
    next: Option<Point<'a>>,
    byte: Byte,
) -> Last<'a> {
    let resource = byte.resource();
    let mut trail = Trail {
        byte,
        is_exclusive: creating.is_exclusive(resource),
        is_cached: creating.is_cached(resource),
        owner: None,
        is_dirty: false,
        last: Last::Nothing,
    };
    for (index, point) in points.iter().enumerate() {
        trail = trail.after(creating, index, *point);
    }
    match next {
        Some(point) => trail.after_uses(point).last,
        None => trail.last,
    }
}

/// The family of a queue.
fn family_of(queue: u32) -> u32 {
    if queue < 2 { 0 } else { 1 }
}

impl<'a> Trail<'a> {
    /// After a point, of this number.
    fn after(self, creating: &CreatingEntries<'a>, number: usize, point: Point<'a>) -> Trail<'a> {
        match point.action {
            Action::Host(entry) => self.after_entry(point, entry),
            Action::Run(command) => self.after_command(creating, number, point, command),
            Action::Wait(_) | Action::Signal(_) => self,
        }
    }

    fn after_entry(self, point: Point<'a>, entry: &'a Entry) -> Trail<'a> {
        let act = Act::Hosts(entry);
        let mut trail = self;
        match (entry, self.byte) {
            (
                Entry::Write {
                    buffer,
                    offset,
                    bytes,
                },
                Byte::Buffer { buffer: own, at },
            ) if *buffer == own => {
                let from = at.checked_sub(*offset);
                if from.is_some_and(|from| from < bytes.len() as u64) {
                    trail.last = Last::Written;
                    trail.is_dirty = self.is_cached;
                }
            }
            _ => {
                if act.invalidates(self.byte) && self.is_dirty {
                    trail.last = Last::Lost(Loss::Invalidation, point);
                    trail.is_dirty = false;
                }
                if act.flushes(self.byte) {
                    trail.is_dirty = false;
                }
            }
        }
        trail
    }

    fn after_command(
        self,
        creating: &CreatingEntries<'a>,
        number: usize,
        point: Point<'a>,
        command: &'a Cmd,
    ) -> Trail<'a> {
        let mut trail = self.after_uses(point);
        match origin_of(creating, command, self.byte) {
            Some(Origin::Command) => trail.last = Last::Written,
            Some(Origin::Byte(from)) => trail.last = Last::Copied(number, from),
            None => {}
        }
        if let Cmd::Barrier { elements } = command {
            for element in elements.as_slice() {
                trail = trail.after_element(point, element);
            }
        }
        trail
    }

    /// After the uses of a point's command, if it is one.
    fn after_uses(self, point: Point<'a>) -> Trail<'a> {
        let Action::Run(command) = point.action else {
            return self;
        };
        if uses(command, self.byte.resource()) {
            self.used(point)
        } else {
            self
        }
    }

    /// After a use by the family of a point's queue.
    fn used(self, point: Point<'a>) -> Trail<'a> {
        let user = family_of(point.queue);
        let mut trail = self;
        if !self.is_exclusive {
            return trail;
        }
        if let Some(owner) = self.owner {
            if owner != user && !matches!(self.last, Last::Nothing | Last::Lost(..)) {
                trail.last = Last::Lost(Loss::Family { user, owner }, point);
            }
        }
        trail.owner = Some(user);
        trail
    }

    fn after_element(self, point: Point<'a>, element: &Element) -> Trail<'a> {
        let named = match element {
            Element::Memory(_) => return self,
            Element::Buffer(buffer) => buffer.buffer,
            Element::Image(image) => image.image,
        };
        if named != self.byte.resource() {
            return self;
        }
        if is_release(point.queue, element) {
            let mut trail = self.used(point);
            trail.owner = Some(family_of(point.queue));
            return trail;
        }
        let mut trail = self;
        if is_acquire(point.queue, element) {
            if let Element::Image(image) = element {
                trail = trail.transitioned(point, image);
            }
            trail.owner = Some(family_of(point.queue));
            return trail;
        }
        match element {
            Element::Image(image) if is_of_one_family(image) && is_transition(image) => {
                self.used(point).transitioned(point, image)
            }
            _ => self,
        }
    }

    /// After a layout transition.
    fn transitioned(self, point: Point<'a>, element: &ImageElement) -> Trail<'a> {
        let mut trail = self;
        let loses = is_transition(element) && element.old_layout.code() == 0;
        if loses && has_texel(&element.range, self.byte) {
            if !matches!(self.last, Last::Nothing | Last::Lost(..)) {
                trail.last = Last::Lost(Loss::Transition, point);
            }
        }
        trail
    }
}

fn is_of_one_family(element: &ImageElement) -> bool {
    element.families.source == element.families.destination
}

fn is_transition(element: &ImageElement) -> bool {
    element.old_layout.code() != element.new_layout.code()
}

/// Whether a command uses a resource.
pub fn uses(command: &Cmd, resource: u32) -> bool {
    match command {
        Cmd::Fill { buffer, .. } | Cmd::Update { buffer, .. } => *buffer == resource,
        Cmd::Copy {
            source,
            destination,
            ..
        }
        | Cmd::CopyImage {
            source,
            destination,
            ..
        } => *source == resource || *destination == resource,
        Cmd::Clear { image, .. } => *image == resource,
        Cmd::CopyIn { buffer, image, .. } | Cmd::CopyOut { buffer, image, .. } => {
            *buffer == resource || *image == resource
        }
        Cmd::Barrier { .. } | Cmd::Set { .. } | Cmd::Await { .. } => false,
    }
}
