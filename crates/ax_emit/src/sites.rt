//! The places of the code of each source instruction.

ghost use Rattle.std.specs.Prelude.{◌≡◌, ◌-◌, ◌≤◌, ◌++◌, ℕ, List, [], IfOk, OnOk};
ghost use Rattle.ax_isa.specs.declared.images.SiteRange.{SiteRange};
ghost use Rattle.ax_mid.specs.declared.code.Line.{Line};
ghost use Rattle.ax_emit.specs.Passes.{places_from};
ghost use Rattle.ax_emit.specs.Sites.{is_same_site, joined, opened, ranged, ranges_from};

use ax_isa::SiteRange;
use ax_mid::Line;
use ax_words::Site;
use std::alloc::{AllocError, Global};

fn is_same_site(a: Site, b: Site) -> bool
    ensures { result ≡ is_same_site a b }
{
    a.function == b.function && a.instruction == b.instruction
}

/// Joins the current range with the next where both are of one site, and else closes it.
fn join(
    ranges: &mut Vec<SiteRange>,
    current: Option<SiteRange>,
    next: SiteRange,
) -> Result<SiteRange, AllocError>
    ensures { IfOk result (λ last. (rest : List SiteRange) → ranges.new.items ++ joined last rest ≡ ranges.old.items ++ opened current (joined next rest)) }
{
    match current {
        None => Ok(next),
        Some(range) => {
            if is_same_site(range.site, next.site) {
                return Ok(SiteRange {
                    site: next.site,
                    first: range.first,
                    last: next.last,
                });
            }
            ranges.push(range)?;
            Ok(next)
        }
    }
}

/// Adds the code of a line, from its first place to before the end.
fn cover(
    ranges: &mut Vec<SiteRange>,
    current: Option<SiteRange>,
    site: Site,
    first: u32,
    end: u32,
) -> Result<Option<SiteRange>, AllocError>
    requires { first ≤ end }
    ensures { IfOk result (λ last. (rest : List SiteRange) → ranges.new.items ++ opened last rest ≡ ranges.old.items ++ opened current (ranged site first (end - first) rest)) }
{
    if first == end {
        return Ok(current);
    }
    let next = SiteRange {
        site,
        first,
        last: end - 1,
    };
    let last = join(ranges, current, next)?;
    Ok(Some(last))
}

/// Closes the current range.
fn close(ranges: &mut Vec<SiteRange>, current: Option<SiteRange>) -> Result<(), AllocError>
    ensures { OnOk result (ranges.new.items ≡ ranges.old.items ++ opened current []) }
{
    match current {
        None => Ok(()),
        Some(range) => {
            ranges.push(range)?;
            Ok(())
        }
    }
}

/// The range of places of each source instruction, in the order of the code, from lines and the
/// places at which `emit` put their code. A line without code has no range. The only error is
/// memory.
pub fn site_ranges<R>(
    alloc: Global,
    lines: &[Line<R>],
    places: &[u32],
) -> Result<Vec<SiteRange>, AllocError>
    requires { (size_of : Line R → ℕ) × (places.now ≡ places_from size_of 1 lines.now) }
    ensures { IfOk result (λ ranges. (size_of : Line R → ℕ) → places.now ≡ places_from size_of 1 lines.now → ranges.items ≡ ranges_from size_of 1 lines.now) }
{
    let mut ranges = Vec::new(alloc);
    let mut current = None;
    for (j, line) in lines.iter().enumerate() {
        current = cover(&mut ranges, current, line.site, places[j], places[j + 1])?;
    }
    close(&mut ranges, current)?;
    Ok(ranges)
}
