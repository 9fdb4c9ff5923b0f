ghost use Rattle.std.specs.Prelude.{OnOk};
ghost use Rattle.cache_tests.specs.IsLed.{IsLed};

use super::expect::expect;
use super::traces::{accepted, config};
use std::alloc::Global;
use std::test::Fail;
use vk_cached_device::{CachedDevice, Touch, replay_through_caches};
use vk_model::Last;
use vk_trace::read_trace;

/// A batch with two fills side by side, a barrier to the host and a signal.
const TWO_FILLS: &str = r#"[["buffer",1,16,3,"exclusive",["dedicated",1]],["semaphore",2,0],
["submit",0,[[[],[["fill",1,0,8,67305985],["fill",1,8,8,134678021],
["barrier",[[4096,4096,16384,8192]],[],[]]],[[2,1,65536]]]]]]"#;

/// The 16 bytes of a buffer in memory.
type Bytes = [u8; 16];

/// What memory has of the buffer at first.
const NEW: Bytes = [0xcd; 16];

/// What it has of it when the first fill alone is there.
const HALF: Bytes = [
    1, 2, 3, 4, 1, 2, 3, 4, 0xcd, 0xcd, 0xcd, 0xcd, 0xcd, 0xcd, 0xcd, 0xcd,
];

/// What it has of it when both are.
const BOTH: Bytes = [1, 2, 3, 4, 1, 2, 3, 4, 5, 6, 7, 8, 5, 6, 7, 8];

/// What the cache of queue 0 does by itself between the fills, and what memory has of the buffer when
/// the first fill has run, after that, and when the second one has.
static STEPS: [(Option<Touch>, [Bytes; 3]); 4] = [
    (None, [NEW, NEW, BOTH]),
    (Some(Touch::WriteBack), [NEW, HALF, BOTH]),
    (Some(Touch::Drop), [NEW, NEW, BOTH]),
    (Some(Touch::Load), [NEW, NEW, BOTH]),
];

/// Runs the first of the pieces that may run.
fn step_first(device: &mut CachedDevice<'_>) -> Result<(), Fail>
    requires { IsLed device.old }
    ensures { OnOk result (IsLed device.new) }
{
    if device.device().offered_count() == 0 {
        return Err("nothing may run")?;
    }
    let piece = device.device().nth_offered(0);
    device.step(piece)?;
    Ok(())
}

/// The cache of queue 0 does something with buffer 1, or nothing.
fn touch_first(device: &mut CachedDevice<'_>, act: Option<Touch>) -> Result<(), Fail>
    requires { IsLed device.old }
    ensures { OnOk result (IsLed device.new) }
{
    let Some(act) = act else {
        return Ok(());
    };
    device.touch(0, 1, act)?;
    Ok(())
}

/// What memory has of buffer 1.
fn peeked(device: &CachedDevice<'_>) -> Result<Bytes, Fail>
    requires { IsLed device.now }
{
    let Some(spot) = device.device().spot(1) else {
        return Err("there is no buffer")?;
    };
    if spot.size < 16 {
        return Err("it is too small")?;
    }
    let mut bytes = [0; 16];
    device.peek(1, 0, &mut bytes);
    Ok(bytes)
}

/// What memory has after one fill, when the cache has done something, and after the other fill.
fn peeked_between(device: &mut CachedDevice<'_>, act: Option<Touch>) -> Result<[Bytes; 3], Fail>
    requires { IsLed device.old }
{
    step_first(device)?;
    let one = peeked(device)?;
    touch_first(device, act)?;
    let touched = peeked(device)?;
    step_first(device)?;
    Ok([one, touched, peeked(device)?])
}

/// The same for the two fills.
fn peeked_of_fills(alloc: Global, act: Option<Touch>) -> Result<[Bytes; 3], Fail> {
    let entries = read_trace(alloc, TWO_FILLS.as_bytes())?;
    let accepted = accepted(alloc, &entries)?;
    let _entries = accepted.entries();
    let mut replayed = replay_through_caches(alloc, &accepted, config(), &mut Last)?;
    peeked_between(&mut replayed.device, act)
}

/// Where the last option is picked, entries come first: both fills may run after their submit. Nothing
/// makes the first one available until the second has run; then the signal makes both available.
#[test]
fn memory_is_behind_until_the_signal(rt: HostRuntime) -> Result<(), Fail> {
    for (act, wanted) in &STEPS {
        let got = peeked_of_fills(rt.alloc(), *act)?;
        expect(&rt, "the buffer", got, *wanted);
    }
    Ok(())
}
