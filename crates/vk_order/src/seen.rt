ghost use Rattle.std.specs.Prelude.{◌≡◌, ◌&&◌, ◌<◌, [], ℕ, Bool, List, IfOk, Some, true, false, length, slice_get, IsTrue, Contains};
ghost use Rattle.std.specs.List.{list_any};
ghost use Rattle.vk_model.specs.World.Bytes as world;
ghost use Rattle.vk_model.specs.Sync.Node.{Node};
ghost use Rattle.vk_model.specs.Sync.Edge.{is_host};
ghost use Rattle.vk_model.specs.Sync.Before.{before};
ghost use Rattle.vk_model.specs.Sync.Seen.{seen};
ghost use Rattle.vk_order.specs.declared.acts.Row.{Row as AnyRow};
ghost use Rattle.vk_order.specs.declared.writes.First.{First as AnyFirst};
ghost use Rattle.vk_order.specs.NodeViews.{act_of, node_of, nodes_after};
ghost use Rattle.vk_order.specs.Bytes.{byte_of};
ghost use Rattle.vk_order.specs.Wide.{access_of};
ghost use Rattle.vk_order.specs.Inner.Kept.{IsStamped};
ghost use Rattle.vk_order.specs.Inner.Availability.{makes_write_available, serves, is_marked, is_after, HasSets, AreFirsts, IsUntil, IsInTime, IsFrom};

use crate::access::Access;
use crate::acts::Row;
use crate::before::is_counted;
use crate::bytes::ByteAccess;
use crate::clocks::Stamp;
use crate::lines::Line;
use crate::reads::{Reader, first_flush, last_invalidation};
use crate::writes::{First, Write};
use std::alloc::{AllocError, Global};

/// Whether an access of a byte by one node sees the write of it by another one.
pub fn is_seen(
    alloc: Global,
    rows: &[Row<'_>],
    stamps: &[Stamp],
    lines: &[Line],
    writer: usize,
    reader: usize,
    access: ByteAccess,
) -> Result<bool, AllocError>
    requires lengths { length stamps.now ≡ length rows.now }
    requires writer { writer < length rows.now }
    requires reader { reader < length rows.now }
    ensures { IfOk result (λ sees. (cached : world.Byte → Bool) (q r : AnyRow) → slice_get rows.now writer ≡ Some q → slice_get rows.now reader ≡ Some r → cached (byte_of access.byte) ≡ access.is_cached → IsStamped rows.now stamps.now lines.now
        → sees ≡ seen cached (nodes_after [] rows.now) (node_of writer q) (node_of reader r) (access_of access.access) (byte_of access.byte)) }
{
    let write = Write {
        number: writer,
        row: rows[writer],
        from: available_from(rows, writer, access),
        byte: access.byte,
    };
    let read = Reader {
        number: reader,
        row: rows[reader],
        until: served_until(rows, reader, access),
        access,
    };
    let sees = is_way(alloc, rows, stamps, lines, &write, &read)?;
    Ok(sees)
}

/// After which node a submit makes a write by the host available: the write, or the first flush
/// after it where the memory is cached.
fn available_from(rows: &[Row<'_>], writer: usize, access: ByteAccess) -> usize
    ensures { IsFrom rows.now writer (byte_of access.byte) access.is_cached result }
{
    if access.is_cached {
        first_flush(rows, writer, access.byte)
    } else {
        writer
    }
}

/// Before which node the writes are visible that an access by the host sees: the access, or the
/// last invalidation before it where it reads cached memory.
fn served_until(rows: &[Row<'_>], reader: usize, access: ByteAccess) -> Option<usize>
    requires { reader < length rows.now }
    ensures { IsInTime rows.now reader (byte_of access.byte) access.is_cached (access_of access.access) result }
{
    match access.access {
        Access::Read if access.is_cached => last_invalidation(rows, reader, access.byte),
        _ => Some(reader),
    }
}

/// Whether a node makes the write available, and it or a later one makes it visible to the access.
fn is_way(
    alloc: Global,
    rows: &[Row<'_>],
    stamps: &[Stamp],
    lines: &[Line],
    write: &Write<'_>,
    read: &Reader<'_>,
) -> Result<bool, AllocError>
    requires { length stamps.now ≡ length rows.now }
    ensures { IfOk result (λ is. (in_time : Node → Bool) → IsUntil rows.now read.now.until in_time → IsStamped rows.now stamps.now lines.now
        → is ≡ list_any (λ n. serves in_time (is_host (act_of write.now.row.act)) read.now n && is_after (nodes_after [] rows.now) (makes_write_available write.now) n) (nodes_after [] rows.now)) }
{
    let by_host = write.row.act.is_host();
    let sets = write.sets(alloc, rows)?;
    let firsts = write.firsts(alloc, rows, sets.as_slice())?;
    for (number, row) in rows.iter().enumerate() {
        let is_served = read.is_served_by(rows, stamps, lines, by_host, number, row);
        let sets = sets.as_slice();
        let list = firsts.as_slice();
        if is_served && is_available_before(rows, stamps, lines, write, sets, list, number, row) {
            return Ok(true);
        }
    }
    Ok(false)
}

/// Whether a node makes the write available, or is after one that does.
fn is_available_before(
    rows: &[Row<'_>],
    stamps: &[Stamp],
    lines: &[Line],
    write: &Write<'_>,
    sets: &[usize],
    firsts: &[First],
    number: usize,
    row: &Row<'_>,
) -> bool
    requires lengths { length stamps.now ≡ length rows.now }
    requires sets { (s : ℕ) → Contains sets.now s → s < length rows.now }
    requires within { (f : AnyFirst) → Contains firsts.now f → f.number < length stamps.now }
    requires number { number < length rows.now }
    ensures { HasSets rows.now (makes_write_available write.now) sets.now → AreFirsts rows.now (is_marked (nodes_after [] rows.now) (makes_write_available write.now)) firsts.now → IsStamped rows.now stamps.now lines.now → slice_get rows.now number ≡ Some row.now
        → result ≡ is_after (nodes_after [] rows.now) (makes_write_available write.now) (node_of number row.now) }
{
    write.is_marked_by(rows, sets, number, row) || is_after_some(stamps, lines, firsts, number)
}

/// Whether a node is after one of these.
fn is_after_some(stamps: &[Stamp], lines: &[Line], firsts: &[First], number: usize) -> bool
    requires within { (f : AnyFirst) → Contains firsts.now f → f.number < length stamps.now }
    requires number { number < length stamps.now }
    ensures yes { result ≡ true → (rows : List AnyRow) (test : Node → Bool) (r : AnyRow) → AreFirsts rows test firsts.now → slice_get rows number ≡ Some r → IsStamped rows stamps.now lines.now
        → (f : AnyFirst) × (x : AnyRow) × Contains firsts.now f × (slice_get rows f.number ≡ Some x) × IsTrue (before (nodes_after [] rows) (node_of f.number x) (node_of number r)) }
    ensures no { result ≡ false → (rows : List AnyRow) (test : Node → Bool) (r : AnyRow) → AreFirsts rows test firsts.now → slice_get rows number ≡ Some r → IsStamped rows stamps.now lines.now
        → (f : AnyFirst) (x : AnyRow) → Contains firsts.now f → slice_get rows f.number ≡ Some x → before (nodes_after [] rows) (node_of f.number x) (node_of number r) ≡ false }
{
    for first in firsts {
        if is_counted(stamps, lines, first.line, first.number, number) {
            return true;
        }
    }
    false
}
