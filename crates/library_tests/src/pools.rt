ghost use Rattle.std.specs.Prelude.{List};
ghost use Rattle.vk_model.specs.declared.entry.Entry.{Entry as AnyEntry};
ghost use Rattle.vk_model.specs.Run.Runs.{Step, Stage};
ghost use Rattle.vk_device.specs.Led.{Led};

use super::expect::expect;
use super::replays::{accepted, config, replayed, replayed_by};
use std::alloc::Global;
use std::test::Fail;
use vk_device::{Device, replay};
use vk_model::Last;
use vk_trace::read_trace;

/// Eight buffers of 1,024 bytes in a pool of two blocks of 4,096; the host writes the last one.
const TWO_BLOCKS: &str = r#"[["pool",1,"tlsf",1,4096,2],
["buffer",10,1024,3,"exclusive",["pool",1]],["buffer",11,1024,3,"exclusive",["pool",1]],
["buffer",12,1024,3,"exclusive",["pool",1]],["buffer",13,1024,3,"exclusive",["pool",1]],
["buffer",14,1024,3,"exclusive",["pool",1]],["buffer",15,1024,3,"exclusive",["pool",1]],
["buffer",16,1024,3,"exclusive",["pool",1]],["buffer",17,1024,3,"exclusive",["pool",1]],
["map",17],["write",17,0,"abcd"]]"#;

/// The memory object of a resource, where it starts there, and its first two bytes.
type Seen = Option<(u64, u64, [u8; 2])>;

fn seen(device: &Device<'_>, resource: u32) -> Seen {
    let spot = device.spot(resource)?;
    if spot.size < 2 {
        return None;
    }
    let mut bytes = [0, 0];
    device.peek(spot.memory, spot.offset, &mut bytes);
    Some((spot.memory, spot.offset, bytes))
}

/// What is seen of buffers 10, 13, 17 and 18.
fn seen_in_blocks(alloc: Global) -> Result<[Seen; 4], Fail> {
    let entries = read_trace(alloc, TWO_BLOCKS.as_bytes())?;
    let replayed = replayed(alloc, &entries)?;
    let device = &replayed.device;
    Ok([
        seen(device, 10),
        seen(device, 13),
        seen(device, 17),
        seen(device, 18),
    ])
}

/// Buffers fill one block after the other, each with bytes of its own.
#[test]
fn buffers_fill_blocks(rt: HostRuntime) -> Result<(), Fail> {
    let wanted = [
        Some((0, 0, [0xcd, 0xcd])),
        Some((0, 3072, [0xcd, 0xcd])),
        Some((1, 3072, [0xab, 0xcd])),
        None,
    ];
    expect(&rt, "the buffers", seen_in_blocks(rt.alloc())?, wanted);
    Ok(())
}

/// The host writes two atoms of a buffer through its cache, and flushes neither.
const UNFLUSHED: &str = r#"[["buffer",1,128,1,"exclusive",["dedicated",2]],["map",1],
["write",1,0,"aa"],["write",1,64,"bb"]]"#;

/// What is seen of the buffer where the first option is picked, and where the last one is.
fn seen_behind_the_cache(alloc: Global) -> Result<[Seen; 2], Fail> {
    let entries = read_trace(alloc, UNFLUSHED.as_bytes())?;
    let first = replayed(alloc, &entries)?;
    let last = replayed_by(alloc, &entries, &mut Last)?;
    Ok([seen(&first.device, 1), seen(&last.device, 1)])
}

/// A write stays in the host's cache where no atom is touched. Where each atom is, before each access,
/// the first write loads both, and the second one writes both back and drops them.
#[test]
fn a_write_stays_in_the_cache(rt: HostRuntime) -> Result<(), Fail> {
    let wanted = [Some((0, 0, [0xcd, 0xcd])), Some((0, 0, [0xaa, 0xcd]))];
    let got = seen_behind_the_cache(rt.alloc())?;
    expect(&rt, "the buffer", got, wanted);
    Ok(())
}

/// A pass is open in which a buffer of two parts moves down by 8,192 bytes.
const TWO_PARTS: &str = r#"[["pool",1,"tlsf",1,65536,1],
["buffer",2,8192,3,"exclusive",["pool",1]],["buffer",3,8192,3,"exclusive",["pool",1]],
["map",3],["write",3,4096,"abcd"],["destroy",2],["defrag",4,1,0,0],["pass",4]]"#;

/// Two bytes of memory, 4,096 before a resource.
fn bytes_below(device: &Device<'_>, resource: u32) -> Option<[u8; 2]> {
    let spot = device.spot(resource)?;
    let at = spot.offset.checked_sub(4096)?;
    if spot.size < 2 {
        return None;
    }
    let mut bytes = [0, 0];
    device.peek(spot.memory, at, &mut bytes);
    Some(bytes)
}

/// How many parts are left, the last of them, and two bytes where it goes, before and after it is
/// copied, and how many are left then.
type Copied = (u64, u64, [Option<[u8; 2]>; 2], u64);

/// Copies the last part that is left.
fn copy_last(device: &mut Device<'_>) -> Result<Copied, Fail>
    requires { (t : List AnyEntry) × (steps : List Step) × (s : Stage) × Led t steps s device.old }
{
    let left = device.copies_left();
    if left == 0 {
        return Err("nothing is left")?;
    }
    let part = device.nth_copy(left - 1);
    let before = bytes_below(device, 3);
    device.copy(part).map_err(|_| "the device has failed")?;
    let bytes = [before, bytes_below(device, 3)];
    Ok((left, part, bytes, device.copies_left()))
}

fn second_part(alloc: Global) -> Result<Copied, Fail> {
    let entries = read_trace(alloc, TWO_PARTS.as_bytes())?;
    let accepted = accepted(alloc, &entries)?;
    let mut replayed = replay(alloc, &accepted, config(), &mut Last)?;
    copy_last(&mut replayed.device)
}

/// Where the last option is picked, entries come first, and both parts are left. A part that is copied
/// is at its new place as well.
#[test]
fn a_part_is_copied(rt: HostRuntime) -> Result<(), Fail> {
    let bytes = [Some([0xcd, 0xcd]), Some([0xab, 0xcd])];
    expect(&rt, "the part", second_part(rt.alloc())?, (2, 1, bytes, 1));
    Ok(())
}

/// What is seen of buffer 17, and where buffer 15 lies: in which memory object, and where it begins
/// there.
type Places = (Seen, Option<(u64, u64)>);

/// The host writes the last of eight buffers in two blocks, and each second of them ends; then a pass
/// begins, and ends without limits, with one of bytes, with one of moves, or where the first buffer
/// stays.
static MOVED: [(&str, Places); 5] = [
    (
        r#"[["pool",1,"tlsf",1,4096,2],["buffer",10,1024,3,"exclusive",["pool",1]],["buffer",11,1024,3,"exclusive",["pool",1]],["buffer",12,1024,3,"exclusive",["pool",1]],["buffer",13,1024,3,"exclusive",["pool",1]],["buffer",14,1024,3,"exclusive",["pool",1]],["buffer",15,1024,3,"exclusive",["pool",1]],["buffer",16,1024,3,"exclusive",["pool",1]],["buffer",17,1024,3,"exclusive",["pool",1]],["map",17],["write",17,0,"abcd"],["destroy",10],["destroy",12],["destroy",14],["destroy",16],["defrag",2,1,0,0],["pass",2]]"#,
        (Some((1, 3072, [0xab, 0xcd])), Some((1, 1024))),
    ),
    (
        r#"[["pool",1,"tlsf",1,4096,2],["buffer",10,1024,3,"exclusive",["pool",1]],["buffer",11,1024,3,"exclusive",["pool",1]],["buffer",12,1024,3,"exclusive",["pool",1]],["buffer",13,1024,3,"exclusive",["pool",1]],["buffer",14,1024,3,"exclusive",["pool",1]],["buffer",15,1024,3,"exclusive",["pool",1]],["buffer",16,1024,3,"exclusive",["pool",1]],["buffer",17,1024,3,"exclusive",["pool",1]],["map",17],["write",17,0,"abcd"],["destroy",10],["destroy",12],["destroy",14],["destroy",16],["defrag",2,1,0,0],["pass",2],["end_pass",2,[],[]]]"#,
        (Some((0, 0, [0xab, 0xcd])), Some((0, 2048))),
    ),
    (
        r#"[["pool",1,"tlsf",1,4096,2],["buffer",10,1024,3,"exclusive",["pool",1]],["buffer",11,1024,3,"exclusive",["pool",1]],["buffer",12,1024,3,"exclusive",["pool",1]],["buffer",13,1024,3,"exclusive",["pool",1]],["buffer",14,1024,3,"exclusive",["pool",1]],["buffer",15,1024,3,"exclusive",["pool",1]],["buffer",16,1024,3,"exclusive",["pool",1]],["buffer",17,1024,3,"exclusive",["pool",1]],["map",17],["write",17,0,"abcd"],["destroy",10],["destroy",12],["destroy",14],["destroy",16],["defrag",2,1,1024,0],["pass",2],["end_pass",2,[],[]]]"#,
        (Some((0, 0, [0xab, 0xcd])), Some((1, 1024))),
    ),
    (
        r#"[["pool",1,"tlsf",1,4096,2],["buffer",10,1024,3,"exclusive",["pool",1]],["buffer",11,1024,3,"exclusive",["pool",1]],["buffer",12,1024,3,"exclusive",["pool",1]],["buffer",13,1024,3,"exclusive",["pool",1]],["buffer",14,1024,3,"exclusive",["pool",1]],["buffer",15,1024,3,"exclusive",["pool",1]],["buffer",16,1024,3,"exclusive",["pool",1]],["buffer",17,1024,3,"exclusive",["pool",1]],["map",17],["write",17,0,"abcd"],["destroy",10],["destroy",12],["destroy",14],["destroy",16],["defrag",2,1,0,1],["pass",2],["end_pass",2,[],[]]]"#,
        (Some((0, 0, [0xab, 0xcd])), Some((1, 1024))),
    ),
    (
        r#"[["pool",1,"tlsf",1,4096,2],["buffer",10,1024,3,"exclusive",["pool",1]],["buffer",11,1024,3,"exclusive",["pool",1]],["buffer",12,1024,3,"exclusive",["pool",1]],["buffer",13,1024,3,"exclusive",["pool",1]],["buffer",14,1024,3,"exclusive",["pool",1]],["buffer",15,1024,3,"exclusive",["pool",1]],["buffer",16,1024,3,"exclusive",["pool",1]],["buffer",17,1024,3,"exclusive",["pool",1]],["map",17],["write",17,0,"abcd"],["destroy",10],["destroy",12],["destroy",14],["destroy",16],["defrag",2,1,0,0],["pass",2],["end_pass",2,[17],[]]]"#,
        (Some((1, 3072, [0xab, 0xcd])), Some((0, 2048))),
    ),
];

fn place(device: &Device<'_>, resource: u32) -> Option<(u64, u64)> {
    let spot = device.spot(resource)?;
    Some((spot.memory, spot.offset))
}

fn places(alloc: Global, text: &str) -> Result<Places, Fail> {
    let entries = read_trace(alloc, text.as_bytes())?;
    let replayed = replayed(alloc, &entries)?;
    let device = &replayed.device;
    Ok((seen(device, 17), place(device, 15)))
}

/// What moves lies at its new place when the pass has ended, and not before, with the bytes that it
/// had.
#[test]
fn passes_move_buffers(rt: HostRuntime) -> Result<(), Fail> {
    for row in &MOVED {
        expect(&rt, row.0, places(rt.alloc(), row.0)?, row.1);
    }
    Ok(())
}
