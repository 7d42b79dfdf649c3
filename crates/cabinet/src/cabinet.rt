// The struct alone: specs/Cabinets names it, so its calls stand in a module below.
ghost use Rattle.cabinet.specs.Reached.{Reached};
ghost use Rattle.cabinet.specs.States.{state_of};

use crate::plain::Plain;

mod calls;

// A running cabinet. Only `load` makes one, and every call keeps that its state is one which schedulable tasks can come to.
#[derive(Drop)]
pub struct Cabinet {
    plain: Plain,
    ghost reached: { ∥ Reached (state_of plain) ∥₁ },
}
