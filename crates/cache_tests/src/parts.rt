ghost use Rattle.cache_tests.specs.IsLed.{IsLed};

use super::expect::expect;
use super::traces::{accepted, config};
use std::alloc::Global;
use std::test::Fail;
use vk_cached_device::{CachedDevice, replay_through_caches};
use vk_model::Last;
use vk_trace::read_trace;

/// A pass is open in which a buffer of two parts moves down by 8,192 bytes.
const TWO_PARTS: &str = r#"[["pool",1,"tlsf",1,65536,1],
["buffer",2,8192,3,"exclusive",["pool",1]],["buffer",3,8192,3,"exclusive",["pool",1]],
["destroy",2],["defrag",4,1,0,0],["pass",4]]"#;

/// Copies the last part that is left: how many are left before and after.
fn copy_last(device: &mut CachedDevice<'_>) -> Result<(u64, u64), Fail>
    requires { IsLed device.old }
{
    let left = device.device().copies_left();
    if left == 0 {
        return Err("nothing is left")?;
    }
    let part = device.device().nth_copy(left - 1);
    device.copy(part)?;
    Ok((left, device.device().copies_left()))
}

fn second_part(alloc: Global) -> Result<(u64, u64), Fail> {
    let entries = read_trace(alloc, TWO_PARTS.as_bytes())?;
    let accepted = accepted(alloc, &entries)?;
    let _entries = accepted.entries();
    let mut replayed = replay_through_caches(alloc, &accepted, config(), &mut Last)?;
    copy_last(&mut replayed.device)
}

/// Where the last option is picked, entries come first, and both parts of a pass are left.
#[test]
fn a_part_is_copied(rt: HostRuntime) -> Result<(), Fail> {
    expect(&rt, "parts", second_part(rt.alloc())?, (2, 1));
    Ok(())
}
