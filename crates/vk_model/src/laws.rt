//! Laws of the definitions, each the contract of a function that does nothing.
ghost use Rattle.vk_model.specs.Laws.{OrderIsOrdered, PlainOrderIsOrdered, OrderHasEntries, OrderGrows, PointsComeOnce, NoFaultIsUnbroken, NoFaultIsSound, FaultOfPastIsFirst, FaultIsFirst, NamesDiffer, TableIsWhole, GrowthKeeps, BeforeIsPath, BeforeIsTransitive, BeforeLeadsOn, PiecesAreByteWrites, PiecesWriteApart, OrdersAgree};

/// A past has no fault exactly where no point of it breaks any rule.
pub fn no_fault_is_unbroken()
    ensures { NoFaultIsUnbroken }
{}

/// So the first fault of a trace is none exactly where no point of it breaks any rule.
pub fn no_fault_is_sound()
    ensures { NoFaultIsSound }
{
    no_fault_is_unbroken();
}

/// Where a past has a fault, its point breaks its rule, no earlier point breaks any rule, and the point
/// breaks no earlier rule of the table.
pub fn fault_of_past_is_first()
    ensures { FaultOfPastIsFirst }
{}

/// So it is of the first fault of a trace, in reference order.
pub fn fault_is_first()
    ensures { FaultIsFirst }
{
    fault_of_past_is_first();
}

/// Rules that are printed alike are the same rule.
pub fn names_differ()
    ensures { NamesDiffer }
{}

/// Each rule is in the table just once.
pub fn table_is_whole()
    ensures { TableIsWhole }
{}

/// Points that come change no edge, no order and no visibility among the nodes that were there.
pub fn growth_keeps()
    ensures { GrowthKeeps }
{}

/// One node of a past is before another exactly where a path of edges leads to it.
pub fn before_is_path()
    ensures { BeforeIsPath }
{}

/// Before is an order: transitive, and it leads to later nodes alone.
pub fn before_is_order()
    ensures transitive { BeforeIsTransitive }
    ensures forward { BeforeLeadsOn }
{}

/// The pieces of a command, put together, are its byte writes.
pub fn pieces_are_byte_writes()
    ensures { PiecesAreByteWrites }
{}

/// Reference order is ordered: host entries one after another, and the points of batches after their
/// submits, each queue's in the order of submission (`ordered`), and so is the plain order (`plain`). Its
/// host entries are the trace's (`entries`), and entries that come add points and change none (`grows`).
pub fn order_is_structured()
    ensures ordered { OrderIsOrdered }
    ensures plain { PlainOrderIsOrdered }
    ensures entries { OrderHasEntries }
    ensures grows { OrderGrows }
{}

/// No two points of an ordered past are reported alike.
pub fn points_come_once()
    ensures { PointsComeOnce }
{}

/// Where no batch waits for a value above the counter, each is started right after its submit: reference
/// order is the plain order.
pub fn orders_agree()
    ensures { OrdersAgree }
{}

/// No two pieces of a command write one byte where the command breaks neither OVERLAP nor RANGE.
pub fn pieces_write_apart()
    ensures { PiecesWriteApart }
{}
