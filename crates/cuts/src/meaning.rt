// The cuts that are chosen are those that the rules describe: each clause is a theorem.
ghost use Rattle.cuts.specs.Reach.{ChosenReachFurthest, FlagsOrderIsReach, OneReachEach};

// Flags are ordered by how far the first region reaches, then the second, and so on.
pub fn flags_order_is_reach()
    ensures each { OneReachEach }
    ensures order { FlagsOrderIsReach }
    ensures chosen { ChosenReachFurthest }
{}
