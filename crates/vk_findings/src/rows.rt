ghost use Rattle.std.specs.Prelude.{◌≡◌, ◌<◌, ◌*◌, IfSome, IsTrue, is_some};
ghost use Rattle.vk_model.specs.Basics.{within};
ghost use Rattle.vk_model.specs.Trace.Image.{texel};
ghost use Rattle.vk_model.specs.World.Areas as spec;
ghost use Rattle.vk_findings.specs.Commons.{rows_have};
ghost use Rattle.vk_findings.specs.Inner.Rows.{row_meets_some};

use crate::commons::first_byte;
use vk_model::{BufferImageCopy, Format};
use vk_overlaps::{row_count, row_size, row_start};

/// The first byte that a row of a region has in common with a row of another, by the rows in order.
pub fn first_in_rows(
    one: &BufferImageCopy,
    format: Format,
    other: &BufferImageCopy,
    other_format: Format,
) -> Option<u128>
    ensures meet { is_some result ≡ spec.rows_meet (texel format) one.now (texel other_format) other.now }
    ensures in_one { IfSome result (λ at. IsTrue (rows_have (texel format) one.now at)) }
    ensures in_other { IfSome result (λ at. IsTrue (rows_have (texel other_format) other.now at)) }
{
    for row in 0..row_count(one) {
        if let Some(at) = first_in_row(one, format, row, other, other_format) {
            return Some(at);
        }
    }
    None
}

/// The first one that this row has in common with a row of the other.
fn first_in_row(
    one: &BufferImageCopy,
    format: Format,
    row: u64,
    other: &BufferImageCopy,
    other_format: Format,
) -> Option<u128>
    requires { row < spec.row_count one.now }
    ensures meet { is_some result ≡ row_meets_some (texel format) one.now row (texel other_format) other.now }
    ensures in_one { IfSome result (λ at. IsTrue (within (spec.row_start (texel format) one.now row) (one.now.width * texel format) at)) }
    ensures in_other { IfSome result (λ at. IsTrue (rows_have (texel other_format) other.now at)) }
{
    let start = row_start(one, format, row);
    let size = row_size(one, format);
    for other_row in 0..row_count(other) {
        let other_start = row_start(other, other_format, other_row);
        let other_size = row_size(other, other_format);
        if let Some(at) = first_byte(start, size, other_start, other_size) {
            return Some(at);
        }
    }
    None
}
