ghost use Rattle.std.specs.Prelude.{◌≡◌, ◌<◌, ◌+◌, nat_lt, IfSome, is_some};
ghost use Rattle.vk_model.specs.Basics.{round_up};
ghost use Rattle.vk_model.specs.Trace.Objects.{of_buffer, of_image};
ghost use Rattle.vk_rules.specs.Sizes.{reported_need};

use vk_image_tiles::asks_more;
use vk_model::{BufferInfo, ImageInfo};

/// The greatest number of bytes that is reported of what a resource asks for.
const GREATEST: u128 = 18_446_744_073_709_551_616;

/// Whether a buffer asks for more than so many bytes. It asks for its size rounded up to 16, which
/// passes the limit just where the size passes the limit rounded down.
pub fn takes_more(info: &BufferInfo, limit: u64) -> bool
    ensures { result ≡ nat_lt limit (round_up info.now.size 16) }
{
    info.size > limit / 16 * 16
}

/// The bytes that a buffer asks for, where they end past so many from an offset on.
pub fn buffer_need_past(info: &BufferInfo, offset: u64, size: u64) -> Option<u128>
    ensures past { is_some result ≡ nat_lt size (offset + (of_buffer info.now).size) }
    ensures need { IfSome result (λ n. (n ≡ reported_need (of_buffer info.now).size) × (size < offset + n)) }
{
    if offset > size || takes_more(info, size - offset) {
        Some(buffer_need(info))
    } else {
        None
    }
}

/// The same of an image; 2 to the power of 64 where it asks for more.
pub fn image_need_past(info: &ImageInfo, offset: u64, size: u64) -> Option<u128>
    ensures past { is_some result ≡ nat_lt size (offset + (of_image info.now).size) }
    ensures need { IfSome result (λ n. (n ≡ reported_need (of_image info.now).size) × (size < offset + n)) }
{
    if offset > size || asks_more(info, size - offset) {
        Some(image_need(info))
    } else {
        None
    }
}

/// The bytes that a buffer asks for, its size rounded up to 16.
fn buffer_need(info: &BufferInfo) -> u128
    ensures { result ≡ reported_need (of_buffer info.now).size }
{
    (u128::from(info.size) + 15) / 16 * 16
}

/// The bytes that an image asks for; 2 to the power of 64 where it asks for more.
fn image_need(info: &ImageInfo) -> u128
    ensures { result ≡ reported_need (of_image info.now).size }
{
    let mut low = 0;
    let mut high = GREATEST;
    while low < high {
        let middle = low + (high - low) / 2;
        if asks_more(info, middle as u64) {
            low = middle + 1;
        } else {
            high = middle;
        }
    }
    low
}
