use vk_heap::Region;

/// A copy from a region to another, or within one, which writes as it says.
pub trait RegionCopy {
    ghost use Rattle.std.specs.Prelude.{List, ℕ};

    /// What it asks of one region, which it reads and writes.
    ghost may_copy_within: { Self → List ℕ → Type 0 };

    /// What it asks of the region that it reads and of the one that it writes.
    ghost may_copy_between: { Self → List ℕ → List ℕ → Type 0 };

    /// What it has read, and what the region that it writes was and is.
    ghost has_copied: { Self → List ℕ → List ℕ → List ℕ → Type 0 };

    /// Copies within a region.
    fn copy_within(&self, region: &mut Region)
        requires { may_copy_within self.now region.old }
        ensures { has_copied self.now region.old region.old region.new };

    /// Copies from a region to another.
    fn copy_between(&self, source: &Region, destination: &mut Region)
        requires { may_copy_between self.now source.now destination.old }
        ensures { has_copied self.now source.now destination.old destination.new };
}
