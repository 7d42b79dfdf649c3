// The structs alone: files of specs/ name them.
ghost use Rattle.std.specs.Prelude.{◌≡◌};
ghost use Rattle.span.specs.Spans.{span_of};
ghost use Rattle.tasks.specs.Tasks.{periods};
ghost use Rattle.tasks.specs.Tables.{sealed};

use bounded::Bounded;
use plans::{Placings, Row};
use std::alloc::AllocError;
use tasks::{MAX_TASKS, Sealed};

// A plan, and what it costs.
#[derive(Clone, Copy)]
pub struct Planned {
    pub rows: Bounded<Row, MAX_TASKS>,
    pub cost: u64,
}

// A walk over the beginnings of core numbers in dictionary order, for a table under a core test.
// The present beginning is that of the placed tasks, followed by `core`, on which the next task is to be tried.
// That it stands so stays a clause of its steps: a ghost field holds a fact of one proof at most, and a test's `accepts` may have several.
pub struct Search<'a, C> {
    pub(crate) table: &'a Sealed,
    pub(crate) test: &'a C,
    // of the table
    pub(crate) span: u32,
    // the first tasks on their cores, with the cuts chosen for them there
    pub(crate) placed: Placings,
    pub(crate) core: u32,
    // of the placed tasks
    pub(crate) cost: u64,
    // the chosen one of the lawful plans whose core numbers come before the present beginning
    pub(crate) best: Option<Planned>,
    ghost spanned: { span ≡ span_of (periods (sealed table.now).tasks) },
}

impl<C> Copy for Search<'_, C> {}

// By hand, since `Clone` cannot be derived for a generic struct with ghost fields.
impl<'a, C> Clone for Search<'a, C> {
    ghost is_clone = { λ x y. y ≡ x };

    ghost is_infallible = { λ _. Unit {0} };

    fn clone(&self) -> Result<Search<'a, C>, AllocError> {
        Ok(*self)
    }
}
