// The table of job records, read as a slice and changed by index.
ghost use Rattle.std.specs.Prelude.{◌≡◌, map, length, position};
ghost use Rattle.std.specs.List.{AllZip};
ghost use Rattle.bounded.specs.Lists.{list_of};
ghost use Rattle.machine.specs.Slots.{busy, inside_on, enter_on, tick_all, ended_on, place_on};
ghost use Rattle.machine.specs.Machine.{slot_at};
ghost use Rattle.machine.specs.Choosing.{Chooses};

use bounded::Bounded;
use machine::{Event, Slot};
use tasks::MAX_TASKS;

// The record of a place, if there is such a place.
pub fn slot_at(slots: &[Slot], place: usize) -> Option<Slot>
    ensures { result ≡ slot_at place slots.now }
{
    slots.get(place.checked_sub(1)?).copied()
}

// Whether a region is under way on the core.
pub fn is_busy(slots: &[Slot], core: u32) -> bool
    ensures { result ≡ busy core slots.now }
{
    slots.iter().any(|slot| slot.is_inside_on(core))
}

// The index of the record whose region is under way on the core.
fn running_on(slots: &[Slot], core: u32) -> Option<usize>
    ensures { result ≡ position (inside_on core) slots.now }
{
    slots.iter().position(|slot| slot.is_inside_on(core))
}

// What the rules write in a row for the core: the place whose region is under way, or 0.
pub fn place_on(slots: &[Slot], core: u32) -> usize
    ensures { result ≡ place_on core 1 slots.now }
{
    running_on(slots, core).map_or(0, |i| i + 1)
}

// The index of the ready job of the core with the earliest deadline, the first of equals.
fn choose(slots: &[Slot], core: u32) -> Option<usize>
    ensures { Chooses core slots.now (length slots.now) result }
{
    slots
        .iter()
        .enumerate()
        .filter(|(_, slot)| slot.runs_on(core) && slot.job.is_ready())
        .min_by_key(|(_, slot)| slot.due)
        .map(|(i, _)| i)
}

// Unless a region is under way on the core, the chosen job enters its next region.
pub fn enter_core(table: &mut Bounded<Slot, MAX_TASKS>, core: u32)
    ensures { list_of table.new ≡ enter_on core (list_of table.old) }
{
    if is_busy(table.as_slice(), core) {
        return;
    }
    if let Some(i) = choose(table.as_slice(), core) {
        let slot = table.at(i);
        table.set(i, slot.after_event(Event::Enter));
    }
}

// Puts what `f` makes of each record in its place. By index, as a release and an entry change one: in the cabinet's table
// records change in one way alone.
fn change_each<F: Fn(Slot) -> Slot>(table: &mut Bounded<Slot, MAX_TASKS>, f: F)
    requires { F.IsAlwaysCallable f }
    ensures { AllZip (λ x y. F.post f x y) (list_of table.old) (list_of table.new) }
{
    for i in 0..table.len() {
        table.set(i, f(table.at(i)));
    }
}

// Each region under way loses a tick.
pub fn tick_all(table: &mut Bounded<Slot, MAX_TASKS>)
    ensures { list_of table.new ≡ tick_all (list_of table.old) }
{
    change_each(table, |slot| slot.after_event(Event::Tick));
}

// The region under way on the core ends.
pub fn end_core(table: &mut Bounded<Slot, MAX_TASKS>, core: u32)
    ensures { list_of table.new ≡ map (ended_on core) (list_of table.old) }
{
    change_each(table, |slot| {
        if slot.runs_on(core) {
            slot.after_event(Event::Early)
        } else {
            slot
        }
    });
}
