// A table, and its two states. The structs alone: specs/Tables names them, and their impls stand below.
ghost use Rattle.std.specs.Prelude.{◌≡◌, true};
ghost use Rattle.bounded.specs.Lists.{list_of};
ghost use Rattle.tasks.specs.Tasks.{table_rules};
ghost use Rattle.tasks.specs.Stored.{table_of};

use crate::task::Task;
use bounded::Bounded;

mod drafts;
mod lists;
mod seals;

pub const MAX_CORES: u32 = 8;

pub const MAX_TASKS: usize = 24;

// What a table holds in either state.
#[derive(Clone, Copy)]
pub(crate) struct Held {
    cores: u32,
    tasks: Bounded<Task, MAX_TASKS>,
    ghost rules: { table_rules (table_of cores (list_of tasks)) ≡ true },
}

// A draft takes tasks.
#[derive(Drop)]
pub struct Draft {
    table: Held,
}

// A sealed table takes none, so that adding to it cannot be written.
#[derive(Drop)]
pub struct Sealed {
    table: Held,
}

#[cfg(test)]
mod tests {
    use crate::proposal::Proposal;
    use crate::table::Draft;

    // A task of one block; the number and place of its refusal.
    fn added(draft: &mut Draft, id: u32, period: u32, deadline: u32) -> Result<(), (u8, usize)> {
        let task = Proposal {
            id,
            period,
            deadline,
            blocks: &[1],
            points: &[],
        };
        draft
            .add(&task)
            .map_err(|refusal| (refusal.number(), refusal.at()))
    }

    #[test]
    fn equal_deadlines_keep_their_order(rt: HostRuntime) {
        let mut draft = Draft::new();
        assert_eq!(rt; added(&mut draft, 7, 20, 9), Ok(()));
        assert_eq!(rt; added(&mut draft, 3, 10, 9), Ok(()));
        assert_eq!(rt; added(&mut draft, 5, 20, 4), Ok(()));
        assert_eq!(rt; added(&mut draft, 5, 20, 4), Err((6, 0)));
        assert_eq!(rt; added(&mut draft, 6, 999_983, 4), Err((8, 0)));
        assert_eq!(rt; added(&mut draft, 6, 20, 21), Err((5, 0)));
        let table = draft.seal();
        assert_eq!(rt; table.span(), 20);
        let tasks = table.tasks();
        assert!(rt; tasks.len() == 3);
        assert_eq!(rt; (tasks[0].id, tasks[1].id, tasks[2].id), (5, 7, 3));
    }

    #[test]
    fn new_draft_empties(rt: HostRuntime) {
        let mut draft = Draft::new();
        assert_eq!(rt; added(&mut draft, 1, 2, 2), Ok(()));
        assert!(rt; draft.new_draft(9).is_err());
        let table = draft.seal();
        assert_eq!(rt;
            (table.cores(), table.tasks().len(), table.span()),
            (1, 1, 2)
        );
        let mut draft = table.open();
        assert!(rt; draft.new_draft(8).is_ok());
        let table = draft.seal();
        assert_eq!(rt;
            (table.cores(), table.tasks().len(), table.span()),
            (8, 0, 1)
        );
    }
}
