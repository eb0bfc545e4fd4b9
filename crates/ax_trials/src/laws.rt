//! Pieces of real instructions that meet the contract of an expansion.

ghost use Rattle.std.specs.Prelude.{ℕ, true, false};
ghost use Rattle.ax_arm.specs.Instructions.{arm_kind};
ghost use Rattle.ax_expand.specs.Bytes.{bytes_world};
ghost use Rattle.ax_expand.specs.Shared.{Shared};
ghost use Rattle.ax_loops.specs.Storing.{fencing, storing_on};
ghost use Rattle.ax_loops.specs.Updating.{UpdateRegisters, updating_on};
ghost use Rattle.ax_rv.specs.Instructions.{rv_kind};
ghost use Rattle.ax_words.specs.declared.operation.RmwOp.TheVariants as rmw;
ghost use Rattle.ax_x86.specs.Instructions.{x86_kind};
ghost use Rattle.ax_trials.specs.Buffered.{BufferedStoreExpands, FullFenceExpands, LockedAdditionExpands};
ghost use Rattle.ax_trials.specs.Nand.{NandByCompareExpands};
ghost use Rattle.ax_trials.specs.PairExchange.{CompareExchange, CompareExchangeByPairExpands, exchanging_on};
ghost use Rattle.ax_trials.specs.Pairs.{FetchAndAddByPairExpands};
ghost use Rattle.ax_trials.specs.Refused.{IsRefused, NopIsNoFence, leaving_code, plain_code, twice_code};
ghost use Rattle.ax_trials.specs.RefusedExchange.{IsNoExchange, early_code, once_code};
ghost use Rattle.ax_trials.specs.Swap.{NandBySwapExpands};
ghost use Rattle.ax_trials.specs.WidePairs.{ExchangeWideByPairExpands, WideExchange, wide_on};

use ax_arm::ArmInstr;
use ax_expand::{AccessOnMachine, one_access_follows};
use ax_loops::{
    ReplacedNumber, compare_loop_expands, pair_exchange_expands, retry_loop_expands,
    wide_loop_expands,
};
use ax_rv::RvInstr;
use ax_x86::X86Instr;

/// An addition to 8 bytes, by the registers with the address, the operand and the result, on RV64.
struct FetchAndAdd;

impl ReplacedNumber for FetchAndAdd {
    type Instr = RvInstr;

    ghost Shared = { Shared };

    ghost Case = { UpdateRegisters };

    ghost kind = { rv_kind };

    ghost world = { bytes_world };

    ghost operation = { λ r. updating_on rmw.Add 8 r };
}

/// A nand with 8 bytes, by the registers with the address, the operand and the result, on x86-64.
struct FetchAndNand;

impl ReplacedNumber for FetchAndNand {
    type Instr = X86Instr;

    ghost Shared = { Shared };

    ghost Case = { UpdateRegisters };

    ghost kind = { x86_kind };

    ghost world = { bytes_world };

    ghost operation = { λ r. updating_on rmw.Nand 8 r };
}

/// On RV64 `lr.d`, `add`, `sc.d` and a branch back, `bnez`, are a fetch-and-add of 8 bytes, whatever
/// code stands round them and whatever other processors do (RISC-V A extension,
/// "Load-Reserved/Store-Conditional Instructions"). The event is made once, by the pair store that
/// writes; one that fails is a caused failure, since the reservation was lost.
pub fn fetch_and_add_by_pair_expands()
    ensures { FetchAndAddByPairExpands }
{
    retry_loop_expands::<FetchAndAdd>();
}

/// A compare-exchange of 8 bytes, strong or weak, on RV64.
struct ExchangeByPair;

impl ReplacedNumber for ExchangeByPair {
    type Instr = RvInstr;

    ghost Shared = { Shared };

    ghost Case = { CompareExchange };

    ghost kind = { rv_kind };

    ghost world = { bytes_world };

    ghost operation = { λ z. exchanging_on z };
}

/// On RV64 `lr.d`, `bne`, `sc.d` and what follows are a compare-exchange of 8 bytes, whatever code
/// stands round them and whatever other processors do (RISC-V A extension,
/// "Load-Reserved/Store-Conditional Instructions"). A strong one goes back where its pair store
/// fails, by `bnez`; a weak one misses, and answers false. The event is made once: by the linked load
/// where the numbers differ, else by the pair store.
pub fn compare_exchange_by_pair_expands()
    ensures { CompareExchangeByPairExpands }
{
    pair_exchange_expands::<ExchangeByPair>();
}

/// A store of 8 bytes that waits, by the registers with the address and the number.
struct BufferedStore;

impl AccessOnMachine for BufferedStore {
    type Instr = X86Instr;

    ghost Case = { ℕ × ℕ };

    ghost kind = { x86_kind };

    ghost operation = { λ r. storing_on true 8 r.0 r.1 };
}

/// An addition to 8 bytes, by the registers with the address, the operand and the result.
struct LockedAddition;

impl AccessOnMachine for LockedAddition {
    type Instr = X86Instr;

    ghost Case = { UpdateRegisters };

    ghost kind = { x86_kind };

    ghost operation = { λ r. updating_on rmw.Add 8 r };
}

/// A full fence.
struct FullFence;

impl AccessOnMachine for FullFence {
    type Instr = X86Instr;

    ghost Case = { Unit {0} };

    ghost kind = { x86_kind };

    ghost operation = { λ u. fencing };
}

/// On x86-64 a plain `mov` to memory is a store that waits in the buffer of its processor.
pub fn buffered_store_expands()
    ensures { BufferedStoreExpands }
{
    one_access_follows::<BufferedStore>();
}

/// `lock xadd` is a fetch-and-add of 8 bytes, behind all own stores that wait.
pub fn locked_addition_expands()
    ensures { LockedAdditionExpands }
{
    one_access_follows::<LockedAddition>();
}

/// `mfence` is a full fence: it comes behind all own stores that wait.
pub fn full_fence_expands()
    ensures { FullFenceExpands }
{
    one_access_follows::<FullFence>();
}

/// On x86-64, which has no instruction for it, a loop of `lock cmpxchg` is a fetch-and-nand of 8
/// bytes, whatever waits in its buffer and whatever other processors do (Intel SDM volume 2,
/// CMPXCHG). The event is made once, by the `cmpxchg` that stores; one that fails is a caused
/// failure, since another processor has written to the object since it was read.
pub fn nand_by_compare_expands()
    ensures { NandByCompareExpands }
{
    compare_loop_expands::<FetchAndNand>();
}

/// A nand with 8 bytes, by the registers with the address, the operand and the result, on AArch64.
struct FetchAndNandBySwap;

impl ReplacedNumber for FetchAndNandBySwap {
    type Instr = ArmInstr;

    ghost Shared = { Shared };

    ghost Case = { UpdateRegisters };

    ghost kind = { arm_kind };

    ghost world = { bytes_world };

    ghost operation = { λ r. updating_on rmw.Nand 8 r };
}

/// On AArch64 with LSE, which has no instruction for it, a loop of `cas`, `cmp` and `b.ne` is a
/// fetch-and-nand of 8 bytes (Arm ARM, CAS). A `cas` that fails is a caused failure.
pub fn nand_by_swap_expands()
    ensures { NandBySwapExpands }
{
    compare_loop_expands::<FetchAndNandBySwap>();
}

/// An exchange of 16 bytes on AArch64.
struct ExchangeWideByPair;

impl ReplacedNumber for ExchangeWideByPair {
    type Instr = ArmInstr;

    ghost Shared = { Shared };

    ghost Case = { WideExchange };

    ghost kind = { arm_kind };

    ghost world = { bytes_world };

    ghost operation = { λ z. wide_on z };
}

/// On AArch64 `ldxp`, which is two steps, `stxp` and a branch back, `cbnz`, are an exchange of 16
/// bytes between places where no half of a linked load is done (Arm ARM, LDXP and STXP). The event
/// is made once, by the pair store that writes, and both halves of the number found are of one
/// number.
pub fn exchange_wide_by_pair_expands()
    ensures { ExchangeWideByPairExpands }
{
    wide_loop_expands::<ExchangeWideByPair>();
}

/// Pieces of RV64 code that don't meet the contract: a load, an addition and a plain store in place
/// of the locked addition; a loop that is left where its pair store failed; an event made twice.
/// And on x86-64 a `nop` is no `mfence`.
pub fn wrong_pieces_are_refused()
    ensures plain { IsRefused plain_code }
    ensures leaving { IsRefused leaving_code }
    ensures twice { IsRefused twice_code }
    ensures nop { NopIsNoFence }
{}

/// Pieces of RV64 code that are no compare-exchange: a weak one that answers false without its pair
/// store, and a strong one that answers false where its pair store failed.
pub fn wrong_exchanges_are_refused()
    ensures early { IsNoExchange true early_code }
    ensures once { IsNoExchange false once_code }
{}
