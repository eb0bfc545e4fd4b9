//! Layouts of modules, classes and locks of objects, and the checks of modules.

ghost use Rattle.std.specs.Prelude.{◌≡◌, IfOk};

use crate::targets::target;
use ax_check::laws::accepted_can_be_laid_out;
use ax_check::{Accepted, CheckFault, Refusal, check};
use ax_layout::regions::objects_are_apart;
use ax_layout::{Class, class, lock_index};
use ax_read::{ReadFault, read};
use ax_rows::{Fault, number};
use ax_words::{Place, Width};
use std::alloc::{AllocError, Global};

/// What the calls of an object's address answer.
pub(crate) fn of_address(alloc: Global, words: &[&str]) -> Result<String, Fault> {
    match words {
        ["lock_index", address] => {
            let address = u64::try_from(number(address)?)?;
            Ok(lock_index(address).to_string(alloc)?)
        }
        ["class", address, bytes, name] => {
            let address = u64::try_from(number(address)?)?;
            let width = Width::of_bytes(bytes.parse::<u64>()?).ok_or(Fault::Row)?;
            let class = match class(address, width, target(name)?) {
                Class::Native => "native",
                Class::Locked => "locked",
            };
            Ok(String::from_str(alloc, class)?)
        }
        _ => Err(Fault::Row),
    }
}

/// The module of a text that has one, checked.
pub(crate) fn check_text(
    alloc: Global,
    name: &str,
    text: &[u8],
) -> Result<Result<Accepted, Refusal>, Fault> {
    if text.len() > 4_194_304 {
        return Err(Fault::Row);
    }
    let module = match read(alloc, text) {
        Ok(module) => module,
        Err(ReadFault::Memory) => return Err(Fault::Memory),
        Err(_) => return Err(Fault::Row),
    };
    match check(alloc, module, target(name)?) {
        Ok(accepted) => Ok(Ok(accepted)),
        Err(CheckFault::Refused(refusal)) => Ok(Err(refusal)),
        Err(CheckFault::Memory) => Err(Fault::Memory),
    }
}

/// The module of a text, which has no faults on the target.
pub(crate) fn accepted(alloc: Global, name: &str, text: &[u8]) -> Result<Accepted, Fault> {
    check_text(alloc, name, text)?.map_err(|_| Fault::Row)
}

/// Whether a text's module is accepted on a target, and with which layout; else its first fault.
pub(crate) fn checked(alloc: Global, name: &str, text: &[u8]) -> Result<String, Fault> {
    let refusal = match check_text(alloc, name, text)? {
        Ok(accepted) => {
            let (end, target) = (accepted.layout().end(), accepted.target().name());
            let functions = accepted.module().functions.as_slice().len();
            return Ok(format!(in alloc;
                "accepted for {target}, {functions} functions, globals to {end:#x}"
            )?);
        }
        Err(refusal) => refusal,
    };
    let number = refusal.number;
    Ok(match refusal.place {
        Place::Global(g) => format!(in alloc; "refused {number} at global {g}")?,
        Place::Head(f) => format!(in alloc; "refused {number} at head {f}")?,
        Place::Inst(site) => {
            let (function, instruction) = (site.function, site.instruction);
            format!(in alloc; "refused {number} at {function} {instruction}")?
        }
    })
}

/// The address of an element, if there is one.
fn address(accepted: &Accepted, g: u32, i: u64) -> Result<u64, Fault> {
    accepted.is_without_faults();
    accepted_can_be_laid_out();
    objects_are_apart();
    match accepted.module().globals.as_slice().get(g as usize) {
        Some(global) if i < global.count => Ok(accepted.layout().address(g, i)),
        _ => Err(Fault::Row),
    }
}

/// Appends a global's name and the addresses of its elements.
fn push_addresses(out: &mut String, accepted: &Accepted, g: usize) -> Result<(), Fault> {
    let global = accepted
        .module()
        .globals
        .as_slice()
        .get(g)
        .ok_or(Fault::Row)?;
    out.push_str(str::from_utf8(global.name.as_bytes()).map_err(|_| Fault::Row)?)?;
    let (g, count) = (u32::try_from(g)?, global.count);
    for i in 0..count {
        let address = address(accepted, g, i)?;
        write!(out, " {address:#x}")?;
    }
    out.push_str(", ")?;
    Ok(())
}

/// The addresses of all elements of a module's globals, and the address behind the last.
pub(crate) fn layout_of(alloc: Global, name: &str, text: &[u8]) -> Result<String, Fault> {
    let accepted = accepted(alloc, name, text)?;
    let mut out = String::new(alloc);
    for g in 0..accepted.module().globals.as_slice().len() {
        push_addresses(&mut out, &accepted, g)?;
    }
    let end = accepted.layout().end();
    write!(out, "end {end:#x}")?;
    Ok(out)
}
