use super::expect::expect;
use super::replays::replayed;
use std::alloc::Global;
use std::test::Fail;
use vk_device::Device;
use vk_image_tiles::Shape;
use vk_model::{Format, Kind};
use vk_trace::read_trace;

/// Two bytes are copied to texel (3, 4) of an optimal image of 9 by 5 texels of 16 bits.
const UPLOAD: &str = r#"[["buffer",1,4,1,"exclusive",["dedicated",1]],
["image",2,"R16_UINT",9,5,1,1,"optimal",2,"exclusive",["dedicated",0]],["semaphore",3,0],
["map",1],["write",1,0,"abcd"],["submit",0,[[[],[
["barrier",[],[],[[0,0,4096,4096,4294967295,4294967295,2,0,7,[0,1,0,1]]]],
["copy_in",1,2,7,[[0,0,0,0,0,1,3,4,1,1]]]],[[3,1,65536]]]]],["wait",[[3,1]]]]"#;

/// The bytes of texel (x, y) of that image, where the device has it.
fn texel_of(device: &Device<'_>, x: u32, y: u32) -> Option<[u8; 2]> {
    let shape = Shape::new(Format::R16Uint, 9, 5, 1, 1, Kind::Optimal).ok()?;
    let spot = device.spot(2)?;
    if x >= 9 || y >= 5 {
        return None;
    }
    let at = shape.address(0, 0, x, y);
    let mut bytes = [0, 0];
    if at + 2 > spot.size {
        return None;
    }
    let place = spot.offset.checked_add(at)?;
    device.peek(spot.memory, place, &mut bytes);
    Some(bytes)
}

fn uploaded(alloc: Global) -> Result<Option<[u8; 2]>, Fail> {
    let entries = read_trace(alloc, UPLOAD.as_bytes())?;
    let replayed = replayed(alloc, &entries)?;
    Ok(texel_of(&replayed.device, 3, 4))
}

/// A texel is where its address says, from where the image lies on.
#[test]
fn a_texel_is_at_its_address(rt: HostRuntime) -> Result<(), Fail> {
    expect(&rt, "the texel", uploaded(rt.alloc())?, Some([0xab, 0xcd]));
    Ok(())
}
