// What is proved of the written definitions alone. The functions do nothing: each carries a theorem in its contract.
ghost use Rattle.rules.specs.Edges.{EdgesHold};
ghost use Rattle.rules.specs.Better.{BetterReadsPlainly};

// Every edge of the list comes out as it says, and none is about nothing.
pub fn edges_hold()
    ensures { EdgesHold }
{}

// Each rule's test for the better quote says what its plain reading says.
pub fn better_reads_plainly()
    ensures { BetterReadsPlainly }
{}
