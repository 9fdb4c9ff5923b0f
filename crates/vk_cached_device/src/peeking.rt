ghost use Rattle.std.specs.Prelude.{length};
ghost use Rattle.vk_cached_device.specs.Peeks.{MayPeek, Peeks};

use crate::device::CachedDevice;

impl CachedDevice<'_> {
    /// Copies the bytes that memory has of a resource, from byte `at` on, into `out`: of those that it is
    /// behind by, what it had before they were written. It takes no memory.
    pub fn peek(&self, resource: u32, at: u64, out: &mut [u8])
        requires { MayPeek self.now resource at (length out.old) }
        ensures { Peeks self.now resource at (length out.old) out.new }
    {
        let Some(spot) = self.device.spot(resource) else {
            unreachable!()
        };
        // A region's size is a whole number of 64 bits, so the places in it are too.
        let _size = self
            .device
            .resources()
            .memories()
            .region(spot.memory)
            .size();
        self.device.peek(spot.memory, spot.offset + at, out);
        self.lags.look(resource, at, out);
    }
}
