// The edge cases of the pool and of what it stands on: proved as one fact, and made to happen on a
// table.
#![tactic(auto)]

ghost use Rattle.edges.specs.Edges.{Edges};

pub mod cases;

// Each edge case is as its name says.
#[tactic(auto, using(crate::proofs::Seconds::one_reads, crate::proofs::Seconds::two_reads_not))]
pub fn edges()
    ensures { Edges }
{}
