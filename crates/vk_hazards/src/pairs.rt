ghost use Rattle.std.specs.Prelude.{◌≡◌, ◌<◌, ◌≤◌, ◌&&◌, ℕ, IfOk, IfSome, None, Some, true, false, Contains, length};
ghost use Rattle.vk_model.specs.World.Bytes.{Byte as AnyByte, in_buffer, in_image};
ghost use Rattle.vk_model.specs.Sync.Node.{Node, nodes};
ghost use Rattle.vk_model.specs.Sync.Before.{before};
ghost use Rattle.vk_model.specs.Sync.Edge as edge;
ghost use Rattle.vk_model.specs.Sync.Access.{is_seen};
ghost use Rattle.vk_order.specs.Bytes.{byte_of};
ghost use Rattle.vk_order.specs.Wide.{access_of};
ghost use Rattle.vk_order.specs.NodeViews.{act_of, node_of};
ghost use Rattle.vk_hazards.specs.declared.areas.Area.TheVariants as area;
ghost use Rattle.vk_hazards.specs.Areas.{AreAreas, has, have};
ghost use Rattle.vk_hazards.specs.Hazards.{is_missing, earlier_bytes, later_bytes};
ghost use Rattle.vk_hazards.specs.Latest.{IsFound};
ghost use Rattle.vk_hazards.specs.Inner.Pairs.{IsPair, IsMissed, AreAlike};

use crate::alike::alike_until;
use crate::areas::{Area, Texels};
use crate::hazards::Hazard;
use crate::past::Past;
use std::alloc::AllocError;
use vk_order::{Access, Act, Byte, ByteAccess, Row};

/// Two nodes, by their numbers.
#[derive(Clone, Copy)]
pub struct Pair {
    /// That of the earlier one.
    pub earlier: usize,
    /// That of the later one.
    pub later: usize,
}

impl Past<'_> {
    /// What the earlier node of a hazard accesses.
    fn earlier_areas(&self, hazard: Hazard, row: &Row<'_>) -> Result<Vec<Area>, AllocError>
        ensures { IfOk result (λ areas. (k : ℕ) → AreAreas areas.items (earlier_bytes self.now hazard (node_of k row.now))) }
    {
        match hazard {
            Hazard::War => self.areas_read(row.point.queue, &row.act),
            Hazard::Raw | Hazard::Waw => self.areas_written(row.point.queue, &row.act),
        }
    }

    /// What the later node of a hazard accesses.
    pub(crate) fn later_areas(&self, hazard: Hazard, row: &Row<'_>) -> Result<Vec<Area>, AllocError>
        ensures { IfOk result (λ areas. (k : ℕ) → AreAreas areas.items (later_bytes self.now hazard (node_of k row.now))) }
    {
        match hazard {
            Hazard::Raw => self.areas_read(row.point.queue, &row.act),
            Hazard::War | Hazard::Waw => self.areas_written(row.point.queue, &row.act),
        }
    }

    /// Whether the earlier node comes before the later one in every allowed order.
    pub(crate) fn is_ordered(&self, pair: Pair) -> bool
        requires earlier { pair.earlier < length (nodes self.now) }
        requires later { pair.later < length (nodes self.now) }
        ensures { (x y : Node) → IsPair self.now pair x y → result ≡ before (nodes self.now) x y }
    {
        self.order.before(pair.earlier, pair.later)
    }

    /// Whether an access of a byte by the later node sees the write of it by the earlier one.
    fn sees(&self, pair: Pair, access: Access, byte: Byte) -> Result<bool, AllocError>
        requires earlier { pair.earlier < length (nodes self.now) }
        requires later { pair.later < length (nodes self.now) }
        ensures { IfOk result (λ sees. (x y : Node) → IsPair self.now pair x y → sees ≡ is_seen self.now x y (access_of access) (byte_of byte)) }
    {
        let is_cached = self.creators.is_cached(byte.resource());
        let access = ByteAccess {
            byte,
            access,
            is_cached,
        };
        self.order.seen(pair.earlier, pair.later, access)
    }

    /// Whether what the later access of a byte needs is missing.
    fn is_missing(&self, hazard: Hazard, pair: Pair, byte: Byte) -> Result<bool, AllocError>
        requires earlier { pair.earlier < length (nodes self.now) }
        requires later { pair.later < length (nodes self.now) }
        ensures { IfOk result (λ is. (x y : Node) → IsPair self.now pair x y → is ≡ is_missing self.now hazard x y (byte_of byte)) }
    {
        match hazard {
            Hazard::War => Ok(!self.is_ordered(pair)),
            Hazard::Raw => {
                let sees = self.sees(pair, Access::Read, byte)?;
                Ok(!sees)
            }
            Hazard::Waw => {
                let sees = self.sees(pair, Access::Write, byte)?;
                Ok(!sees)
            }
        }
    }

    /// The first byte of a range of a buffer at which something is missing.
    fn missing_in_bytes(
        &self,
        hazard: Hazard,
        pair: Pair,
        buffer: u32,
        low: u64,
        high: u64,
    ) -> Result<Option<Byte>, AllocError>
        requires earlier { pair.earlier < length (nodes self.now) }
        requires later { pair.later < length (nodes self.now) }
        ensures { IfOk result (λ found. (x y : Node) → IsPair self.now pair x y → IsMissed self.now hazard x y (has (area.Bytes buffer low high)) found) }
    {
        let mut at = low;
        while at < high {
            let byte = Byte::Buffer { buffer, at };
            if self.is_missing(hazard, pair, byte)? {
                return Ok(Some(byte));
            }
            at = self.alike_until(buffer, at, high);
        }
        Ok(None)
    }

    /// Up to which byte of a range of a buffer all nodes do the same as with its first one.
    fn alike_until(&self, buffer: u32, at: u64, high: u64) -> u64
        requires { at < high }
        ensures further { at < result }
        ensures within { result ≤ high }
        ensures alike { (k : ℕ) → at ≤ k → k < result → AreAlike (nodes self.now) (in_buffer buffer k) (in_buffer buffer at) }
    {
        let mut end = high;
        for row in &self.rows {
            end = alike_until(&row.act, buffer, at, end);
        }
        end
    }

    /// The first layer of texels at which something is missing, by its first byte.
    fn missing_in_texels(
        &self,
        hazard: Hazard,
        pair: Pair,
        texels: &Texels,
    ) -> Result<Option<Byte>, AllocError>
        requires earlier { pair.earlier < length (nodes self.now) }
        requires later { pair.later < length (nodes self.now) }
        ensures { IfOk result (λ found. (x y : Node) → IsPair self.now pair x y → IsMissed self.now hazard x y (has (area.Texels texels.now)) found) }
    {
        if texels.left >= texels.right || texels.top >= texels.bottom || texels.texel == 0 {
            return Ok(None);
        }
        for layer in texels.first_layer..texels.end_layer {
            let byte = texels.first_of(layer);
            if self.is_missing(hazard, pair, byte)? {
                return Ok(Some(byte));
            }
        }
        Ok(None)
    }

    /// The first byte of an area at which something is missing.
    fn missing_in_area(
        &self,
        hazard: Hazard,
        pair: Pair,
        area: &Area,
    ) -> Result<Option<Byte>, AllocError>
        requires earlier { pair.earlier < length (nodes self.now) }
        requires later { pair.later < length (nodes self.now) }
        ensures { IfOk result (λ found. (x y : Node) → IsPair self.now pair x y → IsMissed self.now hazard x y (has area.now) found) }
    {
        match area {
            Area::Bytes { buffer, low, high } => {
                let found = self.missing_in_bytes(hazard, pair, *buffer, *low, *high)?;
                Ok(found)
            }
            Area::Texels(texels) => {
                let found = self.missing_in_texels(hazard, pair, texels)?;
                Ok(found)
            }
        }
    }

    /// The first byte of both of two areas at which something is missing.
    fn missing_in(
        &self,
        hazard: Hazard,
        pair: Pair,
        first: &Area,
        second: &Area,
    ) -> Result<Option<Byte>, AllocError>
        requires earlier { pair.earlier < length (nodes self.now) }
        requires later { pair.later < length (nodes self.now) }
        ensures { IfOk result (λ found. (x y : Node) → IsPair self.now pair x y → IsMissed self.now hazard x y (λ b. has first.now b && has second.now b) found) }
    {
        let Some(area) = first.common(second) else {
            return Ok(None);
        };
        let found = self.missing_in_area(hazard, pair, &area)?;
        Ok(found)
    }

    /// The same of an area and one of several.
    fn missing_among(
        &self,
        hazard: Hazard,
        pair: Pair,
        first: &Area,
        areas: &[Area],
    ) -> Result<Option<Byte>, AllocError>
        requires earlier { pair.earlier < length (nodes self.now) }
        requires later { pair.later < length (nodes self.now) }
        ensures { IfOk result (λ found. (x y : Node) → IsPair self.now pair x y → IsMissed self.now hazard x y (λ b. has first.now b && have areas.now b) found) }
    {
        for second in areas {
            if let Some(byte) = self.missing_in(hazard, pair, first, second)? {
                return Ok(Some(byte));
            }
        }
        Ok(None)
    }

    /// The same of one of some areas and one of others.
    fn missing_of(
        &self,
        hazard: Hazard,
        pair: Pair,
        own: &[Area],
        areas: &[Area],
    ) -> Result<Option<Byte>, AllocError>
        requires earlier { pair.earlier < length (nodes self.now) }
        requires later { pair.later < length (nodes self.now) }
        ensures { IfOk result (λ found. (x y : Node) → IsPair self.now pair x y → IsMissed self.now hazard x y (λ b. have own.now b && have areas.now b) found) }
    {
        for first in own {
            if let Some(byte) = self.missing_among(hazard, pair, first, areas)? {
                return Ok(Some(byte));
            }
        }
        Ok(None)
    }

    /// A byte at which the later node of a pair, which accesses these areas, is in hazard with the
    /// earlier one.
    pub(crate) fn hazard_between(
        &self,
        hazard: Hazard,
        pair: Pair,
        areas: &[Area],
    ) -> Result<Option<Byte>, AllocError>
        requires order { pair.earlier < pair.later }
        requires later { pair.later < length (nodes self.now) }
        ensures { IfOk result (λ found. (x y : Node) → IsPair self.now pair x y → AreAreas areas.now (later_bytes self.now hazard y) → IsFound self.now hazard x y found) }
    {
        let row = self.rows[pair.earlier];
        if are_of_host(&row, &self.rows[pair.later]) {
            return Ok(None);
        }
        let own = self.earlier_areas(hazard, &row)?;
        let found = self.missing_of(hazard, pair, own.as_slice(), areas)?;
        Ok(found)
    }
}

/// Whether both are entries of the host.
fn are_of_host(first: &Row<'_>, second: &Row<'_>) -> bool
    ensures { result ≡ (edge.is_host (act_of first.now.act) && edge.is_host (act_of second.now.act)) }
{
    matches!(first.act, Act::Hosts(_)) && matches!(second.act, Act::Hosts(_))
}
