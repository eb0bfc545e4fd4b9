//! What holds of machine code of middle code.

ghost use Rattle.ax_fine.specs.Fine.{Program};
ghost use Rattle.ax_emit.specs.Laws.{AtomicLineFollows, BranchedLineFollows, ComputedLineFollows, EmittedCodeFollows, EndedLineFollows, LabelLineFollows, LoadLineFollows, PerformedLineFollows, StoreLineFollows};
ghost use Rattle.ax_emit.specs.Passes.{EndIsBehindCode, PlacesAgree, SameCodeIsOneImage, SameSizesAreOnePlace};

use ax_isa::Isa;

/// Middle code, with what all processors share, what its atomic operations do, and where the
/// frames lie.
pub trait MiddleProgram {
    /// A register of middle code.
    ghost Register: { Type 0 };

    /// What all processors share.
    ghost World: { Type 0 };

    /// Which program it is, where there are several.
    ghost Case: { Type 0 };

    ghost program: { Case → Program Register World };
}

/// The code of a line that touches its processor alone keeps the line's contract where it does, on
/// registers and the frame, what the line does.
pub fn performed_line_follows<I: Isa, M: MiddleProgram>()
    ensures { (case : M.Case) → PerformedLineFollows I.kind (M.program case) }
{}

/// The code of a line that computes a number keeps the line's contract where that number is in a
/// register of the machine before it goes to its slot.
pub fn computed_line_follows<I: Isa, M: MiddleProgram>()
    ensures { (case : M.Case) → ComputedLineFollows I.kind (M.program case) }
{}

/// The code of a jump, an output or an end keeps the line's contract where its last instruction
/// does what the line does.
pub fn ended_line_follows<I: Isa, M: MiddleProgram>()
    ensures { (case : M.Case) → EndedLineFollows I.kind (M.program case) }
{}

/// A silent jump over a jump keeps the contract of a branch.
pub fn branched_line_follows<I: Isa, M: MiddleProgram>()
    ensures { (case : M.Case) → BranchedLineFollows I.kind (M.program case) }
{}

/// Slots, an expansion on registers, of which nothing but its contract is known, and slots: this
/// keeps the contract of the line of an atomic operation.
pub fn atomic_line_follows<I: Isa, M: MiddleProgram>()
    ensures { (case : M.Case) → AtomicLineFollows I.kind (M.program case) }
{}

/// Slots, one access, code that clears its result, and slots: this keeps the contract of the line of
/// a load or a store, where it does in the frame what the line does there, and else keeps the
/// contract of the access.
pub fn access_line_follows<I: Isa, M: MiddleProgram>()
    ensures load { (case : M.Case) → LoadLineFollows I.kind (M.program case) }
    ensures store { (case : M.Case) → StoreLineFollows I.kind (M.program case) }
{}

/// A label has no code.
pub fn label_line_follows<I: Isa, M: MiddleProgram>()
    ensures { (case : M.Case) → LabelLineFollows I.kind (M.program case) }
{}

/// Where the code of each line keeps its contract, the image that is laid out from it keeps in step
/// with the middle machine that makes one step a line.
pub fn emitted_code_follows<I: Isa, M: MiddleProgram>()
    ensures { (case : M.Case) → EmittedCodeFollows I.kind (M.program case) }
{}

/// The list of places has the places of the image.
pub fn places_agree<I, R>()
    ensures { PlacesAgree I R }
{}

/// Where the code of each line has its size, the place behind the last is behind all code of the
/// image.
pub fn end_is_behind_code<I, R>()
    ensures { EndIsBehindCode I R }
{}

/// Two ways to say the same code of each line say one image.
pub fn same_code_is_one_image<I, R>()
    ensures { SameCodeIsOneImage I R }
{}

/// Two ways to say the same size of each line say the same places and ranges of sites.
pub fn same_sizes_are_one_place<R>()
    ensures { SameSizesAreOnePlace R }
{}
