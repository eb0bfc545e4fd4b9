//! Loops meet the contract of an expansion.

ghost use Rattle.std.specs.Prelude.{ℕ, Bool};
ghost use Rattle.ax_isa.specs.Steps.{Kind};
ghost use Rattle.ax_expand.specs.Expands.{Expands};
ghost use Rattle.ax_expand.specs.Operation.{Operation};
ghost use Rattle.ax_expand.specs.World.{Lawful, World};
ghost use Rattle.ax_loops.specs.Compare.{CompareLoop, Compares, compare_code, compare_most, compare_size};
ghost use Rattle.ax_loops.specs.Exchanging.{Exchange};
ghost use Rattle.ax_loops.specs.PairExchange.{Exchanges, PairExchange, exchange_code, exchange_size};
ghost use Rattle.ax_loops.specs.Replacing.{Replacement};
ghost use Rattle.ax_loops.specs.Retry.{Retries, RetryLoop, retry_code, retry_most, retry_size};
ghost use Rattle.ax_loops.specs.WideRetry.{ExpandsWhole, WideLoop, WideRetries, wide_code, wide_size};

/// An operation of an instruction set's code that replaces a number in memory, in all its cases,
/// as those by the registers that it uses.
pub trait ReplacedNumber {
    type Instr;

    /// What all processors share.
    ghost Shared: { Type 0 };

    /// The cases of the operation.
    ghost Case: { Type 0 };

    /// The instruction set.
    ghost kind: { Kind Self.Instr };

    /// How a storage shows what is shared.
    ghost world: { World Shared };

    /// The operation.
    ghost operation: { Case → Operation Shared };
}

/// A linked load, a computation on registers, a pair store and a branch back to the linked load are
/// an expansion of an operation that replaces a number (RISC-V A extension,
/// "Load-Reserved/Store-Conditional Instructions"; Arm ARM, exclusive monitors). By the contract the
/// event is made once, by the pair store that writes; a pair store that fails is a caused failure, so
/// that the idle steps between are excused.
pub fn retry_loop_expands<N: ReplacedNumber>()
    ensures { (case : N.Case) (keeps : ℕ → Bool) (replacement : Replacement N.Shared) (loop : RetryLoop N.Instr)
        → Lawful N.world → Retries N.kind keeps (N.operation case) replacement loop N.world
        → Expands N.kind N.world (retry_most loop) keeps (retry_size loop) (λ start. retry_code loop) (N.operation case) }
{}

/// A plain load, and then a computation on registers, a locked compare-and-swap with the number
/// found last and a branch back to the computation, are an expansion of an operation that replaces a
/// number (Intel SDM volume 2, CMPXCHG; Arm ARM, CAS; RISC-V Zacas), on machines with store buffers
/// and on others. By the contract the event is made once, by the compare-and-swap that stores; one
/// that fails is a caused failure, since another processor has written to the object since it was
/// read, so that the idle steps between are excused.
pub fn compare_loop_expands<N: ReplacedNumber>()
    ensures { (case : N.Case) (keeps : ℕ → Bool) (replacement : Replacement N.Shared) (loop : CompareLoop N.Instr)
        → Lawful N.world → Compares N.kind keeps (N.operation case) replacement loop N.world
        → Expands N.kind N.world (compare_most loop) keeps (compare_size loop) (λ start. compare_code loop) (N.operation case) }
{}

/// A linked load of a word, a way out where the object in it is not the expected number, and a pair
/// store of the word that is to be left are an expansion of a compare-exchange of that object, which
/// is the word or a part of it under a mask (RISC-V A extension, "Load-Reserved/Store-Conditional
/// Instructions"; Arm ARM, exclusive monitors; LLVM Language Reference, "cmpxchg"). By the contract
/// the event is made once: by the linked load where the numbers differ, else by the pair store. Where
/// that fails a strong exchange goes back to the linked load; a weak one, which has looked there,
/// misses and answers false. Either failure is a caused one.
pub fn pair_exchange_expands<N: ReplacedNumber>()
    ensures { (case : N.Case) (keeps : ℕ → Bool) (exchange : Exchange N.Shared) (code : PairExchange N.Instr)
        → Lawful N.world → Exchanges N.kind keeps (N.operation case) exchange code N.world
        → Expands N.kind N.world code.most keeps (exchange_size code) (λ start. exchange_code code) (N.operation case) }
{}

/// A linked load of 16 bytes in two steps, a computation on registers, a pair store and a way back
/// to the linked load meet the contract of an expansion of an operation that replaces a number of 16
/// bytes, between places where no half of a linked load is done (Arm ARM, LDXP and exclusive
/// monitors). By the contract the event is made once, by the pair store that writes: where the
/// reservation stands, both halves are of one number. A pair store that fails is a caused failure,
/// counted from the first half.
pub fn wide_loop_expands<N: ReplacedNumber>()
    ensures { (case : N.Case) (keeps : ℕ → Bool) (replacement : Replacement N.Shared) (loop : WideLoop N.Instr)
        → Lawful N.world → WideRetries N.kind keeps (N.operation case) replacement loop N.world
        → ExpandsWhole N.kind N.world loop.most keeps (wide_size loop) (λ start. wide_code loop) (N.operation case) }
{}
