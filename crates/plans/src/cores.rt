// What stands on one core.
ghost use Rattle.std.specs.Prelude.{◌≡◌, ◌≤◌, [], length, Decides};
ghost use Rattle.bounded.specs.Lists.{list_of};
ghost use Rattle.plans.specs.Plans.{on_core};

use crate::types::Placed;
use bounded::Bounded;
use coretests::Entry;
use tasks::MAX_TASKS;

// The core's list.
pub fn on_core(all: &[Placed], core: u32) -> Bounded<Entry, MAX_TASKS>
    requires { length all.now ≤ 24 }
    ensures items { list_of result ≡ on_core core all.now }
    ensures len { length (list_of result) ≤ length all.now }
{
    let mut list = Bounded::default();
    for placed in all.iter().filter(|p| p.row.core == core) {
        let _ = list.push(placed.entry);
    }
    list
}

// Whether the core has no task.
pub fn is_idle(all: &[Placed], core: u32) -> bool
    ensures { Decides result (on_core core all.now ≡ []) }
{
    !all.iter().any(|p| p.row.core == core)
}
