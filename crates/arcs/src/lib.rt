// Arc consistency: what is proved of families of domains, over any arcs. Each function stands for the theorem in its contract.
#![tactic(auto)]

ghost use Rattle.arcs.specs.Theorems.{OneLargest, OneWipedOut, SomeLargest, UnionConsistent};
ghost use Rattle.arcs.specs.Justifying.{JustifiedLargest, MoreKeeps, OutOfEvery, PutOutKeeps, ReleaseKeeps};

// The union of two consistent families is consistent.
pub fn union_is_consistent()
    ensures { UnionConsistent }
{}

// At most one family is largest.
pub fn one_is_largest()
    ensures { OneLargest }
{}

// A largest family exists, where only finitely much can go out.
pub fn some_is_largest()
    ensures { SomeLargest }
{}

// At most one answer names the wiped-out variable.
pub fn one_is_wiped_out()
    ensures { OneWipedOut }
{}

// Where all that is out is justified, no consistent family inside the bound contains any of it.
pub fn justified_is_out_of_every()
    ensures { OutOfEvery }
{}

// Consistent and justified is largest.
pub fn justified_is_largest()
    ensures { JustifiedLargest }
{}

// Added reasons keep everything justified.
pub fn more_reasons_keep()
    ensures { MoreKeeps }
{}

// A value without support that goes out last keeps everything justified.
pub fn put_out_keeps()
    ensures { PutOutKeeps }
{}

// Putting back exactly what rests on lost reasons keeps the rest justified.
pub fn release_keeps()
    ensures { ReleaseKeeps }
{}
