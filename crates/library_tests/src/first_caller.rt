//! A first caller of the libraries: reads a trace, validates it, replays it, and makes the text of the
//! answer.

use std::test::Fail;
use vk_device::replay;
use vk_model::{Config, First};
use vk_trace::{Outcome, read_trace, text};
use vk_validate::{Verdict, validate};

/// The buffer 1 of 16 bytes is filled on the queue, and the host reads its first word.
const TRACE: &str = r#"[
  ["buffer",1,16,3,"exclusive",["dedicated",1]],
  ["semaphore",2,0],
  ["submit",0,[[[],[["fill",1,0,16,67305985],["barrier",[[4096,4096,16384,8192]],[],[]]],[[2,1,65536]]]]],
  ["wait",[[2,1]]],
  ["map",1],
  ["read",1,0,4]
]"#;

#[test]
fn the_answer_is_what_the_host_reads(rt: HostRuntime) -> Result<(), Fail> {
    let alloc = rt.alloc();
    let entries = read_trace(alloc, TRACE.as_bytes())?;
    let outcome = match validate(alloc, &entries)? {
        Verdict::Refused(at, rule) => Outcome::Refused(at, rule),
        Verdict::Accepted(accepted) => {
            let config = Config::new(65_536, 65_536).ok_or("the sizes of the heaps")?;
            let replayed = replay(alloc, &accepted, config, &mut First)?;
            Outcome::Reads(replayed.reads, replayed.stop)
        }
    };
    assert_eq!(rt; text(alloc, &outcome)?.as_str(), "5 01020304\n");
    Ok(())
}
