// Whether the lists of the cores hold.
ghost use Rattle.std.specs.Prelude.{Decides};
ghost use Rattle.bounded.specs.Lists.{list_of};
ghost use Rattle.clearing.specs.Examined.{Holds, FirstNotHeld};

use coretests::CoreTest;
use plans::{Placings, is_idle, on_core};

// Nothing is asked of an empty core.
fn core_holds<C: CoreTest>(test: &C, placed: &Placings, core: u32) -> bool
    ensures { Decides result (Holds (C.accepts test.now) (list_of placed.now) core) }
{
    let placed = placed.as_slice();
    is_idle(placed, core) || test.holds(on_core(placed, core).as_slice())
}

// The first core whose list does not hold.
pub fn first_overloaded<C: CoreTest>(test: &C, cores: u32, placed: &Placings) -> Option<u32>
    ensures { FirstNotHeld (C.accepts test.now) cores (list_of placed.now) result }
{
    (1..=cores).find(|core| !core_holds(test, placed, *core))
}
