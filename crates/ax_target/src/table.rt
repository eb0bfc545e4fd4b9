//! What each target has, as constants of a type and as functions of a target.

ghost use Rattle.std.specs.Prelude.{◌≡◌, ℕ, Bool, true, false, refl};
ghost use Rattle.ax_target.specs.declared.target.Target.{Target};
ghost use Rattle.ax_target.specs.Targets.{greatest_native, is_buffered, has_pairs};

use crate::target::Target;

/// What a target has. One type for each name implements it.
pub trait TargetTable {
    /// The greatest size of an object, in bytes, that the target's own atomic instructions reach.
    const MAX_NATIVE: usize;
    /// Whether stores wait in a buffer of each processor.
    const BUFFERED: bool;
    /// Whether there are pairs of a linked load and a store that may fail.
    const PAIRS: bool;

    ghost MAX_NATIVE: { ℕ };

    ghost BUFFERED: { Bool };

    ghost PAIRS: { Bool };

    ghost target: { Target };

    ghost max_native_of_target: { MAX_NATIVE ≡ greatest_native target };

    ghost buffered_of_target: { BUFFERED ≡ is_buffered target };

    ghost pairs_of_target: { PAIRS ≡ has_pairs target };
}

/// x86-64.
pub struct X86Plain;

impl TargetTable for X86Plain {
    const MAX_NATIVE: usize = 8;

    const BUFFERED: bool = true;

    const PAIRS: bool = false;

    ghost MAX_NATIVE = { 8 };

    ghost BUFFERED = { true };

    ghost PAIRS = { false };

    ghost target = { Target.X86 false };

    ghost max_native_of_target = { refl };

    ghost buffered_of_target = { refl };

    ghost pairs_of_target = { refl };
}

/// x86-64 with `cmpxchg16b`.
pub struct X86Cx16;

impl TargetTable for X86Cx16 {
    const MAX_NATIVE: usize = 16;

    const BUFFERED: bool = true;

    const PAIRS: bool = false;

    ghost MAX_NATIVE = { 16 };

    ghost BUFFERED = { true };

    ghost PAIRS = { false };

    ghost target = { Target.X86 true };

    ghost max_native_of_target = { refl };

    ghost buffered_of_target = { refl };

    ghost pairs_of_target = { refl };
}

/// AArch64.
pub struct ArmPlain;

impl TargetTable for ArmPlain {
    const MAX_NATIVE: usize = 16;

    const BUFFERED: bool = false;

    const PAIRS: bool = true;

    ghost MAX_NATIVE = { 16 };

    ghost BUFFERED = { false };

    ghost PAIRS = { true };

    ghost target = { Target.Arm false };

    ghost max_native_of_target = { refl };

    ghost buffered_of_target = { refl };

    ghost pairs_of_target = { refl };
}

/// AArch64 with the Large System Extensions.
pub struct ArmLse;

impl TargetTable for ArmLse {
    const MAX_NATIVE: usize = 16;

    const BUFFERED: bool = false;

    const PAIRS: bool = true;

    ghost MAX_NATIVE = { 16 };

    ghost BUFFERED = { false };

    ghost PAIRS = { true };

    ghost target = { Target.Arm true };

    ghost max_native_of_target = { refl };

    ghost buffered_of_target = { refl };

    ghost pairs_of_target = { refl };
}

/// RV64 with the A extension.
pub struct RvPlain;

impl TargetTable for RvPlain {
    const MAX_NATIVE: usize = 8;

    const BUFFERED: bool = false;

    const PAIRS: bool = true;

    ghost MAX_NATIVE = { 8 };

    ghost BUFFERED = { false };

    ghost PAIRS = { true };

    ghost target = { Target.Rv false false };

    ghost max_native_of_target = { refl };

    ghost buffered_of_target = { refl };

    ghost pairs_of_target = { refl };
}

/// The greatest size of an object, in bytes, that the target's own atomic instructions reach.
pub fn max_native(t: Target) -> usize
    ensures { result ≡ greatest_native t }
{
    match t {
        Target::X86 { cx16: false } => X86Plain::MAX_NATIVE,
        Target::X86 { cx16: true } => X86Cx16::MAX_NATIVE,
        Target::Arm { lse: false } => ArmPlain::MAX_NATIVE,
        Target::Arm { lse: true } => ArmLse::MAX_NATIVE,
        Target::Rv { .. } => RvPlain::MAX_NATIVE,
    }
}

/// Whether the target's stores wait in a buffer of each processor.
pub fn buffered(t: Target) -> bool
    ensures { result ≡ is_buffered t }
{
    match t {
        Target::X86 { cx16: false } => X86Plain::BUFFERED,
        Target::X86 { cx16: true } => X86Cx16::BUFFERED,
        Target::Arm { lse: false } => ArmPlain::BUFFERED,
        Target::Arm { lse: true } => ArmLse::BUFFERED,
        Target::Rv { .. } => RvPlain::BUFFERED,
    }
}

/// Whether the target has pairs of a linked load and a store that may fail.
pub fn pairs(t: Target) -> bool
    ensures { result ≡ has_pairs t }
{
    match t {
        Target::X86 { cx16: false } => X86Plain::PAIRS,
        Target::X86 { cx16: true } => X86Cx16::PAIRS,
        Target::Arm { lse: false } => ArmPlain::PAIRS,
        Target::Arm { lse: true } => ArmLse::PAIRS,
        Target::Rv { .. } => RvPlain::PAIRS,
    }
}

/// The type of each name stands for the target of that name.
pub fn tables_hold()
    ensures x86 { ⟦<X86Plain as TargetTable>⟧.target ≡ Target.X86 false }
    ensures x86_cx16 { ⟦<X86Cx16 as TargetTable>⟧.target ≡ Target.X86 true }
    ensures aarch64 { ⟦<ArmPlain as TargetTable>⟧.target ≡ Target.Arm false }
    ensures aarch64_lse { ⟦<ArmLse as TargetTable>⟧.target ≡ Target.Arm true }
    ensures rv64 { ⟦<RvPlain as TargetTable>⟧.target ≡ Target.Rv false false }
{}
