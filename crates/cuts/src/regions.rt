// The regions that cuts make of a task. The struct alone: specs/Walk names it.
ghost use Rattle.std.proofs.Props.{props};
ghost use Rattle.std.specs.Iterator.Adapters.{zip_first, zip_second};
ghost use Rattle.std.specs.Slice.Iter.{iter_rest};
ghost use Rattle.cuts.specs.Regions.{Fits};

use std::iter::Zip;
use std::slice::Iter;

mod walk;

// An iterator over their lengths, in order.
#[derive(Drop)]
pub struct Regions<'a> {
    // the length so far of the region that comes next, and none after the last
    under_way: Option<u32>,
    // each block that follows, the cost of the point before it, and whether there is a cut;
    // the rules of a task have blocks and points as lists of their own, so they are zipped
    gaps: Zip<Zip<Iter<'a, u32>, Iter<'a, u32>>, Iter<'a, bool>>,
    ghost fits: { Fits under_way (iter_rest (zip_first (zip_first gaps))) (iter_rest (zip_second (zip_first gaps))) (iter_rest (zip_second gaps)) } by { Prim.hlevel props },
}
