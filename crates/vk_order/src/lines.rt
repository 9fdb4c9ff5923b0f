ghost use Rattle.std.specs.Prelude.{◌≡◌, IsTrue};
ghost use Rattle.vk_order.specs.declared.lines.Line.TheVariants.{Commands as OfCommands};
ghost use Rattle.vk_order.specs.NodeViews.{act_of};
ghost use Rattle.vk_order.specs.Lines.{class_on, element_class, same_line, is_of_sets};
ghost use Rattle.vk_order.specs.Inner.Leads as leads;
ghost use Rattle.vk_order.specs.Inner.Places.{index_in};

use crate::act::Act;
use crate::acts::{TRANSFERS, destination_stages, source_stages};
use crate::places::{is_commands, is_elements};
use bitflags::Flags;
use vk_model::Stages;

/// A line of nodes: those before another node are the first ones of the line.
#[derive(Clone, Copy)]
pub enum Line {
    /// The entries of the host.
    Host,
    /// The clear and copy commands of a queue.
    Commands(u32),
    /// The signals of a queue.
    Signals(u32),
    /// The elements of a queue's barriers and awaits, by whether their destination stages have
    /// transfers and the host.
    Elements(u32, bool, bool),
    /// The elements of a queue's sets, which are no line: each is known by itself.
    Sets(u32),
    /// The waits of a queue, by whether their stages have transfers, the host and ALL_COMMANDS.
    Waits(u32, bool, bool, bool),
}

impl Line {
    /// The line of an act on a queue.
    pub fn of(queue: u32, act: &Act<'_>) -> Line
        ensures { result ≡ class_on queue (act_of act.now) }
    {
        match act {
            Act::Hosts(_) => Line::Host,
            Act::Waits(wait) => Line::Waits(
                queue,
                wait.stages.intersects(TRANSFERS),
                wait.stages.intersects(Stages::HOST),
                wait.stages.contains(Stages::ALL_COMMANDS),
            ),
            Act::Signals(_) => Line::Signals(queue),
            Act::Runs(_) => Line::Commands(queue),
            Act::Set(..) => Line::Sets(queue),
            Act::Barrier(element) => Line::of_stages(queue, destination_stages(element)),
            Act::Await(_, _, dependency) => {
                Line::of_stages(queue, dependency.destination_stages)
            }
        }
    }

    fn of_stages(queue: u32, stages: Stages) -> Line
        ensures { result ≡ element_class queue stages.0 }
    {
        Line::Elements(
            queue,
            stages.intersects(TRANSFERS),
            stages.intersects(Stages::HOST),
        )
    }

    /// Whether two lines are the same one.
    #[inline(always)]
    pub fn is(self, other: Line) -> bool
        ensures { result ≡ same_line self other }
    {
        match other {
            Line::Host => matches!(self, Line::Host),
            Line::Commands(queue) => matches!(self, Line::Commands(own) if own == queue),
            Line::Signals(queue) => matches!(self, Line::Signals(own) if own == queue),
            Line::Sets(queue) => matches!(self, Line::Sets(own) if own == queue),
            Line::Elements(queue, transfer, host) => match self {
                Line::Elements(own, t, h) => own == queue && t == transfer && h == host,
                _ => false,
            },
            Line::Waits(queue, transfer, host, all) => match self {
                Line::Waits(own, t, h, a) => {
                    own == queue && t == transfer && h == host && a == all
                }
                _ => false,
            },
        }
    }

    /// Whether the nodes of the line lead by an edge to a later act on a queue, other than by a
    /// semaphore, an event or as its submit; where they are no siblings of it.
    pub(crate) fn leads(self, queue: u32, act: &Act<'_>) -> bool
        ensures { result ≡ leads.line_leads queue (act_of act.now) self }
    {
        match act {
            Act::Hosts(_) => self.is_of_host(),
            Act::Waits(_) => false,
            Act::Runs(_) => self.ends_in_transfer(queue),
            Act::Signals(signal) => {
                self.leads_to_signals(queue) || self.is_covered(queue, signal.stages)
            }
            Act::Barrier(element) => {
                self.waits_for_all(queue) || self.leads_to_stages(queue, source_stages(element))
            }
            Act::Set(_, _, dependency) => {
                self.waits_for_all(queue) || self.leads_to_stages(queue, dependency.source_stages)
            }
            Act::Await(..) => self.waits_for_all(queue),
        }
    }

    /// Whether it leads to each later signal of the queue.
    fn leads_to_signals(self, on: u32) -> bool
        ensures { result ≡ leads.leads_to_signals on self }
    {
        match self {
            Line::Signals(queue) => queue == on,
            Line::Elements(queue, _, host) => queue == on && host,
            _ => false,
        }
    }

    /// Whether a signal with these stages covers it.
    fn is_covered(self, on: u32, stages: Stages) -> bool
        ensures { result ≡ leads.is_covered on stages.0 self }
    {
        self.leads_to_stages(on, stages)
            || stages.contains(Stages::ALL_COMMANDS) && self.is_of_elements(on)
    }

    /// Whether its nodes are entries of the host.
    pub(crate) fn is_of_host(self) -> bool
        ensures { result ≡ leads.is_of_host self }
    {
        matches!(self, Line::Host)
    }

    /// Whether its nodes are elements of sets.
    pub fn is_of_sets(self) -> bool
        ensures { result ≡ is_of_sets self }
    {
        matches!(self, Line::Sets(_))
    }

    /// Whether its nodes are elements of barriers and awaits.
    pub(crate) fn is_of_barriers(self) -> bool
        ensures { result ≡ leads.is_of_barriers self }
    {
        matches!(self, Line::Elements(..))
    }

    fn is_of_elements(self, on: u32) -> bool
        ensures { result ≡ leads.is_of_elements on self }
    {
        match self {
            Line::Elements(queue, _, _) | Line::Sets(queue) => queue == on,
            _ => false,
        }
    }

    /// Whether its second scope meets a first scope of these stages.
    fn leads_to_stages(self, on: u32, stages: Stages) -> bool
        ensures { result ≡ leads.leads_to_stages on stages.0 self }
    {
        stages.intersects(TRANSFERS) && (self.is_of_commands(on) || self.ends_in_transfer(on))
            || stages.intersects(Stages::HOST) && self.ends_in_host(on)
    }

    fn is_of_commands(self, on: u32) -> bool
        ensures { result ≡ leads.is_of_commands on self }
    {
        match self {
            Line::Commands(queue) => queue == on,
            _ => false,
        }
    }

    /// Whether it has dependencies or waits that end in transfers.
    pub(crate) fn ends_in_transfer(self, on: u32) -> bool
        ensures { result ≡ leads.ends_in_transfer on self }
    {
        match self {
            Line::Elements(queue, transfer, _) | Line::Waits(queue, transfer, _, _) => {
                queue == on && transfer
            }
            _ => false,
        }
    }

    /// Whether it has dependencies or waits that end in the host.
    fn ends_in_host(self, on: u32) -> bool
        ensures { result ≡ leads.ends_in_host on self }
    {
        match self {
            Line::Elements(queue, _, host) | Line::Waits(queue, _, host, _) => {
                queue == on && host
            }
            _ => false,
        }
    }

    fn waits_for_all(self, on: u32) -> bool
        ensures { result ≡ leads.waits_for_all on self }
    {
        match self {
            Line::Waits(queue, _, _, all) => queue == on && all,
            _ => false,
        }
    }
}

/// The index of a line among others. It is asked at each node, mostly for commands and elements, so
/// these are set apart before the search.
pub fn index_among(lines: &[Line], line: Line) -> Option<usize>
    ensures { result ≡ index_in lines.now line }
{
    let mut owns = lines.iter().map(|own| *own);
    match line {
        Line::Commands(queue) => index_of_commands(lines, queue),
        Line::Elements(queue, transfer, host) => {
            owns.position(|own| is_elements(own, queue, transfer, host))
        }
        _ => owns.position(|own| own.is(line)),
    }
}

/// The index of the commands of a queue among lines.
pub fn index_of_commands(lines: &[Line], queue: u32) -> Option<usize>
    ensures { result ≡ index_in lines.now (OfCommands queue) }
{
    let mut owns = lines.iter().map(|own| *own);
    owns.position(|own| is_commands(own, queue))
}
