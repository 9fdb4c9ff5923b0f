ghost use Rattle.std.specs.Prelude.{◌≡◌, ◌<◌, IfOk};
ghost use Rattle.vk_model.specs.Run.Picks.{pick_of, held_after};
ghost use Rattle.vk_device.specs.Led.{IsNext};
ghost use Rattle.vk_device.specs.Asking.{Waited, MayAsk, Goes, option_count};

use crate::device::Device;
use std::alloc::AllocError;
use vk_laws::{defined_runs_follow, direct_runs_are_runs};
use vk_model::{Entry, Scheduler, no_fault_is_sound, order_is_structured};
use vk_offers::waits_go;

impl<'a> Device<'a> {
    /// The commands that an entry waits for: of each queue the first so many. Only a wait of the host
    /// waits for any.
    pub fn waited(&self, entry: &'a Entry) -> Result<Option<[usize; 4]>, AllocError>
        requires { IsNext self.now entry.now }
        ensures { IfOk result (λ counts. Waited self.now entry.now counts) }
    {
        waits_go();
        defined_runs_follow();
        direct_runs_are_runs();
        order_is_structured();
        no_fault_is_sound();
        match entry {
            Entry::Wait { .. } => {
                let before = self.offers.before(self.count, entry)?;
                Ok(Some(before))
            }
            _ => Ok(None),
        }
    }

    /// Whether the next entry may be applied: at once, or a wait of the host when all commands before
    /// it have run.
    pub fn may_go(&self, commands: Option<[usize; 4]>) -> bool
        requires { MayAsk self.now commands }
        ensures { Goes self.now commands result }
    {
        match commands {
            Some(before) => self.offers.is_met(before),
            None => true,
        }
    }
}

/// Asks what the cache of each of the four queues does after a piece, of four answers each. Bytes are
/// kept in place here, and no cache of a queue holds one, so that it changes none.
pub(crate) fn ask_caches<S: Scheduler>(sched: &mut S)
    ensures { S.held sched.new ≡ S.next (S.next (S.next (S.next (S.held sched.old) 4) 4) 4) 4 }
{
    sched.pick(4);
    sched.pick(4);
    sched.pick(4);
    sched.pick(4);
}

/// Which of the options is picked: so many pieces, and then the entry, where it may be applied. The
/// scheduler is asked where there are two or more, and its answer counts modulo their number.
pub fn pick<S: Scheduler>(pieces: u64, goes: bool, sched: &mut S) -> u64
    requires { pieces < 18446744073709551615 }
    ensures picked { result ≡ pick_of S.answer S.next (S.held sched.old) (option_count pieces goes) }
    ensures held { S.held sched.new ≡ held_after S.answer S.next (S.held sched.old) (option_count pieces goes) }
{
    let options = pieces + u64::from(goes);
    if options >= 2 {
        sched.pick(options) % options
    } else {
        0
    }
}
