//! What holds of RV64's code of operations on objects of 1 and 2 bytes.

ghost use Rattle.ax_expand.specs.Bytes.{bytes_world};
ghost use Rattle.ax_expand.specs.Operation.{Inner};
ghost use Rattle.ax_expand.specs.Shared.{Shared};
ghost use Rattle.ax_rv.specs.Instructions.{rv_kind};
ghost use Rattle.ax_rv.specs.declared.instructions.RvInstr.{RvInstr as Instr};
ghost use Rattle.ax_mask.specs.Exchanges.{CompareExchange, exchange_around, word_exchanging};
ghost use Rattle.ax_mask.specs.Laws.{MaskedCodeExpands, MaskedCodeHasRow};
ghost use Rattle.ax_mask.specs.Updates.{Update, update_around, word_updating};
ghost use Rattle.ax_mask.specs.Wrapped.{Standing, wrapping_at};

use ax_expand::{WrappedOperation, wrapped_code_follows};
use ax_loops::{ReplacedNumber, pair_exchange_expands, retry_loop_expands};
use ax_rv::RvInstr;

/// A read-modify-write, on the word that holds its object.
struct WordUpdate;

impl ReplacedNumber for WordUpdate {
    type Instr = RvInstr;

    ghost Shared = { Shared };

    ghost Case = { Update };

    ghost kind = { rv_kind };

    ghost world = { bytes_world };

    ghost operation = { word_updating };
}

/// A compare-exchange, on the word that holds its object.
struct WordExchange;

impl ReplacedNumber for WordExchange {
    type Instr = RvInstr;

    ghost Shared = { Shared };

    ghost Case = { CompareExchange };

    ghost kind = { rv_kind };

    ghost world = { bytes_world };

    ghost operation = { word_exchanging };
}

/// The code round the loop of a read-modify-write, wherever it stands.
struct UpdateCode;

impl WrappedOperation for UpdateCode {
    type Instr = RvInstr;

    ghost Case = { Standing Instr × Update };

    ghost Above = { Inner };

    ghost Common = { Shared };

    ghost wrapping = { λ x. wrapping_at (update_around x.1) x.0 };
}

/// The code round the loop of a compare-exchange, wherever it stands.
struct ExchangeCode;

impl WrappedOperation for ExchangeCode {
    type Instr = RvInstr;

    ghost Case = { Standing Instr × CompareExchange };

    ghost Above = { Inner };

    ghost Common = { Shared };

    ghost wrapping = { λ x. wrapping_at (exchange_around x.1) x.0 };
}

/// On RV64 the code of each read-modify-write and compare-exchange of 1 and 2 bytes, a loop of a
/// linked load and a pair store of the aligned word that holds the object, is an expansion of the
/// operation on the bytes that all processors share, whatever stands beside the object and whatever
/// other processors do there (RISC-V Unprivileged ISA: A extension,
/// "Load-Reserved/Store-Conditional Instructions"). Its memory instructions are the row of the mapping
/// table, in each order that the operation may have.
pub fn masked_code_expands()
    ensures expands { MaskedCodeExpands }
    ensures rows { MaskedCodeHasRow }
{
    retry_loop_expands::<WordUpdate>();
    pair_exchange_expands::<WordExchange>();
    wrapped_code_follows::<UpdateCode>();
    wrapped_code_follows::<ExchangeCode>();
}
