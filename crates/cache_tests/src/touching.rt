ghost use Rattle.std.specs.Prelude.{◌≡◌, OnOk};
ghost use Rattle.vk_device.specs.Led.{IsSoundTrace};
ghost use Rattle.cache_tests.specs.IsLed.{StaysLed};

use super::expect::expect;
use super::traces::{accepted, config};
use std::alloc::Global;
use std::test::Fail;
use vk_cached_device::{Applied, ApplyError, CachedDevice, Touch};
use vk_laws::{defined_runs_follow, direct_runs_are_runs, picks_are_runs};
use vk_model::{Config, Entry, Last, Scheduler, Sequence};
use vk_trace::read_trace;

/// The entry after which a cache is touched: the fill is submitted then, and hasn't run.
const TOUCHED: usize = 4;

/// Buffer 1 is filled on queue 0, and copied on queue 2, which the host waits for: once the buffer is
/// handed over from one family to the other, and once both families have it and the copy is submitted
/// before the fill.
static COPIES: [&str; 2] = [
    r#"[["buffer",1,16,3,"exclusive",["dedicated",0]],["buffer",2,16,2,"exclusive",["dedicated",1]],["semaphore",3,0],["submit",0,[[[],[["fill",1,0,16,67305985],["barrier",[],[[4096,4096,4096,0,0,1,1,0,"whole"]],[]]],[[3,1,65536]]]]],["submit",2,[[[[3,1,65536]],[["barrier",[],[[4096,0,4096,2048,0,1,1,0,"whole"]],[]],["copy",1,2,[[0,0,16]]],["barrier",[[4096,4096,16384,8192]],[],[]]],[[3,2,65536]]]]],["wait",[[3,2]]],["map",2],["read",2,0,4]]"#,
    r#"[["buffer",1,16,3,"concurrent",["dedicated",1]],["buffer",3,16,2,"concurrent",["dedicated",1]],["semaphore",2,0],["submit",2,[[[[2,1,65536]],[["copy",1,3,[[0,0,16]]],["barrier",[[4096,4096,16384,8192]],[],[]]],[[2,2,65536]]]]],["submit",0,[[[],[["fill",1,0,16,67305985]],[[2,1,65536]]]]],["wait",[[2,2]]],["map",3],["read",3,0,4]]"#,
];

/// Applies entries one by one, and lets the cache of queue 2 load buffer 1 after one of them: what was
/// read.
fn read_after_load<S: Scheduler>(
    alloc: Global,
    entries: &[Entry],
    config: Config,
    sched: &mut S,
) -> Result<Vec<(usize, Sequence<u8>)>, Fail>
    requires { IsSoundTrace entries.now }
{
    defined_runs_follow();
    direct_runs_are_runs();
    picks_are_runs();
    let mut device = CachedDevice::new(alloc, config);
    let mut reads = Vec::new(alloc);
    for (index, entry) in entries.iter().enumerate() {
        match device.apply(entry, sched)? {
            Applied::Done => {}
            Applied::Bytes(bytes) => reads.push((index, bytes))?,
            Applied::NoRoom => return Err("there is no room")?,
        }
        load_after(&mut device, index)?;
    }
    Ok(reads)
}

/// The cache of queue 2 loads buffer 1, if this is the entry after which it is to.
fn load_after(device: &mut CachedDevice<'_>, index: usize) -> Result<(), ApplyError>
    ensures led { OnOk result (StaysLed device.old device.new) }
    ensures same { OnOk result (device.new.device ≡ device.old.device) }
    ensures failed { device.new.failed ≡ device.old.failed }
{
    if index != TOUCHED {
        return Ok(());
    }
    device.touch(2, 1, Touch::Load)?;
    Ok(())
}

/// The first bytes that are read of a trace.
fn first_read(alloc: Global, text: &str) -> Result<[u8; 4], Fail> {
    let entries = read_trace(alloc, text.as_bytes())?;
    let accepted = accepted(alloc, &entries)?;
    let reads = read_after_load(alloc, accepted.entries(), config(), &mut Last)?;
    let (_, bytes) = reads.first().ok_or("nothing was read")?;
    let Some(bytes) = bytes.as_slice().first_chunk() else {
        return Err("too little was read")?;
    };
    Ok(*bytes)
}

/// A cache that loads what is to be filled reads the fill all the same, once it is made visible.
#[test]
fn a_load_before_a_fill_is_not_read(rt: HostRuntime) -> Result<(), Fail> {
    for text in &COPIES {
        let got = first_read(rt.alloc(), text)?;
        expect(&rt, *text, got, [1, 2, 3, 4]);
    }
    Ok(())
}
