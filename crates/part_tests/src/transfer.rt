use super::expect::expect;
use std::alloc::{AllocError, Global};
use std::process::Abort;
use std::test::Fail;
use vk_heap::Region;
use vk_model::BufferCopy;
use vk_transfer::{CopyError, CopyPieces, Fill, RegionCopy, Update};

const FILL: Fill = Fill {
    offset: 4,
    size: 5_000,
    word: 0x0403_0201,
};

/// The bytes where the last piece of the fill begins, once it has run alone, and those where it ends,
/// once the first one has run too.
fn filled(rt: &impl Abort, alloc: Global) -> Result<([u8; 8], [u8; 8]), AllocError> {
    let mut region = Region::new(alloc, 5_016)?;
    FILL.run_piece(1, &mut region, 4);
    assert!(rt; region.size() == 5_016);
    let mut begins = [0u8; 8];
    region.read(4_100, &mut begins);
    FILL.run_piece(0, &mut region, 4);
    assert!(rt; region.size() == 5_016);
    let mut ends = [0u8; 8];
    region.read(5_004, &mut ends);
    Ok((begins, ends))
}

#[test]
fn a_piece_writes_its_bytes_alone(rt: HostRuntime) -> Result<(), Fail> {
    expect(&rt, "pieces", FILL.pieces(), 2);
    let (begins, ends) = filled(&rt, rt.alloc())?;
    expect(&rt, "begins", begins, [0xcd, 0xcd, 0xcd, 0xcd, 1, 2, 3, 4]);
    expect(&rt, "ends", ends, [1, 2, 3, 4, 0xcd, 0xcd, 0xcd, 0xcd]);
    Ok(())
}

const UPDATE: Update<'static> = Update {
    offset: 1,
    bytes: &[1, 2, 3, 4, 5],
};

const COPY: RegionCopy = RegionCopy {
    region: BufferCopy {
        source_offset: 1,
        destination_offset: 2,
        size: 3,
    },
};

/// Updates a region, and copies it into another one and within itself: the bytes of the other one, and
/// its own.
fn copied(alloc: Global) -> Result<([u8; 8], [u8; 8]), AllocError> {
    let mut source = Region::new(alloc, 8)?;
    UPDATE.run_piece(0, &mut source, 2);
    let mut destination = Region::new(alloc, 8)?;
    COPY.run_piece(0, &source, 2, &mut destination, 1);
    COPY.run_piece_within(0, &mut source, 2, 2);
    let mut there = [0u8; 8];
    destination.read(0, &mut there);
    let mut here = [0u8; 8];
    source.read(0, &mut here);
    Ok((there, here))
}

#[test]
fn bytes_are_updated_and_copied(rt: HostRuntime) -> Result<(), Fail> {
    expect(&rt, "pieces", (UPDATE.pieces(), COPY.pieces()), (1, 1));
    let (there, here) = copied(rt.alloc())?;
    expect(&rt, "there", there, [0xcd, 0xcd, 0xcd, 1, 2, 3, 0xcd, 0xcd]);
    expect(&rt, "here", here, [0xcd, 0xcd, 0xcd, 1, 1, 2, 3, 5]);
    Ok(())
}

/// A copy of so many bytes.
const fn region(size: u64) -> BufferCopy {
    BufferCopy {
        source_offset: 0,
        destination_offset: 0,
        size,
    }
}

/// Of which of three regions the last of their four pieces is, and its number there.
fn found(rt: &impl Abort, alloc: Global) -> Result<(BufferCopy, u64), CopyError> {
    let regions = [region(4_097), region(0), region(8_192)];
    let pieces = CopyPieces::new(alloc, &regions)?;
    assert!(rt; pieces.pieces() == 4);
    let found = pieces.find(3);
    Ok((found.copy.region, found.number))
}

#[test]
fn pieces_are_found(rt: HostRuntime) -> Result<(), Fail> {
    expect(&rt, "found", found(&rt, rt.alloc())?, (region(8_192), 1));
    Ok(())
}
