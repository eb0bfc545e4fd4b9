//! Targets by their names.

use ax_rows::Fault;
use ax_target::{
    ArmLse, ArmPlain, RvPlain, Target, TargetTable, X86Cx16, X86Plain, buffered, max_native, named,
    pairs,
};
use std::alloc::{AllocError, Global};

pub(crate) fn target(name: &str) -> Result<Target, Fault> {
    named(name).ok_or(Fault::Row)
}

fn listed(
    alloc: Global,
    greatest: usize,
    buffered: bool,
    pairs: bool,
) -> Result<String, AllocError> {
    format!(in alloc; "native to {greatest} bytes, buffered {buffered}, pairs {pairs}")
}

/// What is told of the target of a name.
pub(crate) fn facts(alloc: Global, name: &[u8]) -> Result<String, Fault> {
    let name = str::from_utf8(name).map_err(|_| Fault::Row)?;
    let Some(t) = named(name) else {
        return Ok(String::from_str(alloc, "none")?);
    };
    if t.name() != name {
        return Ok(String::from_str(alloc, t.name())?);
    }
    Ok(listed(alloc, max_native(t), buffered(t), pairs(t))?)
}

fn constants<T: TargetTable>(alloc: Global) -> Result<String, AllocError> {
    listed(alloc, T::MAX_NATIVE, T::BUFFERED, T::PAIRS)
}

/// The same, by the constants of the target's type.
pub(crate) fn constants_of(alloc: Global, name: &str) -> Result<String, Fault> {
    Ok(match target(name)? {
        Target::X86 { cx16: false } => constants::<X86Plain>(alloc)?,
        Target::X86 { cx16: true } => constants::<X86Cx16>(alloc)?,
        Target::Arm { lse: false } => constants::<ArmPlain>(alloc)?,
        Target::Arm { lse: true } => constants::<ArmLse>(alloc)?,
        Target::Rv { .. } => constants::<RvPlain>(alloc)?,
    })
}
