ghost use Rattle.std.specs.Prelude.{◌≡◌, ◌&&◌, ℕ, Bool, nat_lt};
ghost use Rattle.vk_model.specs.Basics.{holds};
ghost use Rattle.vk_model.specs.Sync.Access.{host_writes};
ghost use Rattle.vk_laws.specs.Written.{IsResourceOf, some_bytes, some_copied, some_subresource, some_texel};

use vk_model::{BufferCopy, BufferImageCopy, Entry, ImageCopy, SubresourceRange};

/// The resource that a host entry writes bytes of.
pub fn written_by_host(entry: &Entry) -> Option<u32>
    ensures { IsResourceOf result (host_writes entry.now) }
{
    match entry {
        Entry::Write { buffer, bytes, .. } => only_if(!bytes.is_empty(), *buffer),
        _ => None,
    }
}

/// A resource, if bytes of it are written.
pub fn only_if(is_written: bool, resource: u32) -> Option<u32>
    ensures { (f : ℕ → Bool) → holds result f ≡ (is_written && f resource) }
{
    if is_written { Some(resource) } else { None }
}

/// Whether some region of a copy between buffers has a byte.
pub fn has_bytes(regions: &[BufferCopy]) -> bool
    ensures { result ≡ some_bytes regions.now }
{
    regions.iter().any(|region| region.size > 0)
}

/// Whether some range of an image has a subresource.
pub fn has_subresource(ranges: &[SubresourceRange]) -> bool
    ensures { result ≡ some_subresource ranges.now }
{
    ranges.iter().any(|range| has_any(range))
}

/// Whether one range has.
pub fn has_any(range: &SubresourceRange) -> bool
    ensures { result ≡ (nat_lt 0 range.now.levels && nat_lt 0 range.now.layers) }
{
    range.levels > 0 && range.layers > 0
}

/// Whether some region of a copy between a buffer and an image has a texel.
pub fn has_texel(regions: &[BufferImageCopy]) -> bool
    ensures { result ≡ some_texel regions.now }
{
    regions.iter().any(|region| region.layers > 0 && region.height > 0 && region.width > 0)
}

/// Whether some region of a copy between images has a texel.
pub fn has_copied_texel(regions: &[ImageCopy]) -> bool
    ensures { result ≡ some_copied regions.now }
{
    regions.iter().any(|region| region.layers > 0 && region.height > 0 && region.width > 0)
}
