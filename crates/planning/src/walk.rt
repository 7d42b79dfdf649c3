ghost use Rattle.std.specs.Prelude.{◌≡◌};
ghost use Rattle.tasks.specs.Tables.{sealed};
ghost use Rattle.planning.specs.Walk.{Starts, Going, Descends, Advances};

use crate::placing::{is_cheaper, is_spare, put, rows_placed};
use crate::types::{Planned, Search};
use bounded::Bounded;
use coretests::CoreTest;
use plans::Placed;
use tasks::Sealed;

impl<'a, C: CoreTest> Search<'a, C> {
    // Before the first beginning: nothing is placed, and the first task is to be tried on core 1.
    pub fn new(table: &'a Sealed, test: &'a C) -> Search<'a, C>
        ensures table { result.table.now ≡ table.now }
        ensures test { result.test.now ≡ test.now }
        ensures starts { Starts result }
    {
        Search {
            table,
            test,
            span: table.span(),
            placed: Bounded::default(),
            core: 1,
            cost: 0,
            best: None,
        }
    }

    // Tries the next task on the present core. True where it stays there and the next one is to be placed;
    // false where the present beginning has been tried.
    fn descend(&mut self) -> bool
        requires { Going (C.accepts self.old.test.now) (C.limit self.old.test.now) self.old }
        ensures table { self.new.table ≡ self.old.table }
        ensures test { self.new.test ≡ self.old.test }
        ensures moves { Descends (C.accepts self.old.test.now) (C.limit self.old.test.now) self.old result self.new }
    {
        if is_spare(&self.placed, self.core) {
            return false;
        }
        let tasks = self.table.tasks();
        // it is there, so that `get` would only add a branch that never runs
        let task = &tasks[self.placed.len()];
        let weight = (self.span / task.period) as u64;
        let Some(next) = put(self.test, task, weight, &self.placed, self.core) else {
            return false;
        };
        let cost = self.cost + next.overhead;
        if !is_cheaper(cost, &self.best) {
            return false;
        }
        if self.placed.len() + 1 == tasks.len() {
            let mut whole = self.placed;
            let _ = whole.push(next);
            let rows = rows_placed(&whole);
            self.best = Some(Planned { rows, cost });
            return false;
        }
        let _ = self.placed.push(next);
        self.core = 1;
        self.cost = cost;
        true
    }

    // Tries the present beginning, and goes on to the next one: down to the next task, or on to the next core,
    // of an earlier task where all cores have been tried. False where there is no next one: the walk itself is the value.
    pub fn advance(&mut self) -> bool
        requires { Going (C.accepts self.old.test.now) (C.limit self.old.test.now) self.old }
        ensures table { self.new.table ≡ self.old.table }
        ensures test { self.new.test ≡ self.old.test }
        ensures moves { Advances (C.accepts self.old.test.now) (C.limit self.old.test.now) self.old result self.new }
    {
        if self.descend() {
            return true;
        }
        self.core += 1;
        while self.core > self.table.cores() {
            let Some(last) = self.placed.pop() else {
                return false;
            };
            self.cost -= last.overhead;
            self.core = last.row.core + 1;
        }
        true
    }
}
