// Tests that are no laxer than EDF: any number of layers over EDF, in any order and with any settings.
ghost use Rattle.std.specs.Prelude.{ℕ, List};
ghost use Rattle.coretests.specs.declared.entry.Entry.{Entry};
ghost use Rattle.coretests.specs.Limits.{AtMost};
ghost use Rattle.coretests.specs.Edf.{EdfAccepts, edf_limit};
ghost use Rattle.std.proofs.Common.{rules};
ghost use Rattle.coretests.specs.Piles.{capped_no_longer, raised_accepts, handed_no_longer};
ghost use Rattle.coretests.specs.Layers.{raised};

use crate::cap::Cap;
use crate::core_test::CoreTest;
use crate::edf::Edf;
use crate::handover::Handover;

pub trait EdfPile: CoreTest {
    // What the pile accepts, EDF accepts.
    ghost no_laxer: { (s : Self) (xs : List Entry) → Self.CoreTest.accepts s xs → EdfAccepts xs };

    // The pile's limit is no longer than that of EDF.
    ghost no_longer: { (s : Self) (xs : List Entry) (d : ℕ) → AtMost (Self.CoreTest.limit s xs d) (edf_limit xs d) };
}

impl EdfPile for Edf {
    ghost no_laxer = { Prim.search rules };

    ghost no_longer = { Prim.search rules };
}

impl<P: EdfPile> EdfPile for Cap<P> {
    ghost no_laxer = { λ s xs h. P.EdfPile.no_laxer s.below xs h };

    ghost no_longer = { λ s xs d. capped_no_longer s.c (P.CoreTest.limit s.below xs d) (edf_limit xs d) (P.EdfPile.no_longer s.below xs d) };
}

impl<P: EdfPile> EdfPile for Handover<P> {
    ghost no_laxer = { λ s xs m. raised_accepts s.h xs (P.EdfPile.no_laxer s.below (raised s.h xs) m.1) };

    ghost no_longer = { λ s xs d. handed_no_longer s.h (λ ys. P.CoreTest.limit s.below ys d) d (λ ys. P.EdfPile.no_longer s.below ys d) xs };
}
