// What every core test answers, and the laws that it keeps.
ghost use Rattle.std.specs.Prelude.{◌≡◌, ℕ, true, false, List, [], ◌∷◌, ◌++◌, Some, Decides, Option};
ghost use Rattle.coretests.specs.declared.entry.Entry.{Entry};
ghost use Rattle.coretests.specs.Limits.{AtMost};
ghost use Rattle.coretests.specs.Entries.{sound, between, Lighter};

use crate::entry::Entry;

// A test with its settings means two functions: which lists it accepts, and the limit of a list at an asked deadline.
pub trait CoreTest {
    ghost accepts: { Self → List Entry → Type 0 };

    ghost limit: { Self → List Entry → ℕ → Option ℕ };

    // Whether the list may share a core.
    fn holds(&self, list: &[Entry]) -> bool
        ensures { Decides result (accepts self.now list.now) };

    // The longest region of a next task with the deadline d, or none where nothing bounds it.
    fn longest(&self, list: &[Entry], d: u32) -> Option<u32>
        ensures { result ≡ limit self.now list.now d };

    // An unsound list is not accepted.
    ghost unsound: { (s : Self) (xs : List Entry) → accepts s xs → sound xs ≡ true };

    // The limit of an unsound list is 0.
    ghost unsound_limit: { (s : Self) (xs : List Entry) (d : ℕ) → sound xs ≡ false → limit s xs d ≡ Some 0 };

    // The limit at an asked deadline out of range is 0.
    ghost outside: { (s : Self) (xs : List Entry) (d : ℕ) → between 1 1000000 d ≡ false → limit s xs d ≡ Some 0 };

    // Lighter loads keep a list accepted.
    ghost lighter: { (s : Self) (xs ys : List Entry) → Lighter xs ys → accepts s xs → accepts s ys };

    // Lighter loads never shorten the limit, whether the list is accepted or not.
    ghost longer: { (s : Self) (xs ys : List Entry) (d : ℕ) → Lighter xs ys → AtMost (limit s xs d) (limit s ys d) };

    // Without its last entry an accepted list is accepted.
    ghost fewer: { (s : Self) (xs : List Entry) (x : Entry) → accepts s (xs ++ (x ∷ [])) → accepts s xs };
}
