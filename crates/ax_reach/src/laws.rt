//! What holds of the lines that are pushed.

ghost use Rattle.ax_reach.specs.Clauses.{PiecesAreReached};

/// The lines that the functions of `Pointers` push are the code of their instructions, in whichever
/// block these stand.
#[tactic(auto, using(crate::proofs::Pieces::pieces_are_reached))]
pub fn pieces_are_reached()
    ensures { PiecesAreReached }
{}
