//! Bytes in a row that lie in one region.

ghost use Rattle.std.specs.Prelude.{◌<◌, ◌≤◌, IfSome};
ghost use Rattle.ax_map.specs.Map.{frames_start, globals_start, lock_table_start};
ghost use Rattle.ax_store.specs.Spans.{IsRow};

use ax_map::{FRAME_ROOM, FRAMES_START, GLOBALS_START, LOCK_TABLE_START};

/// A region by its number, the place in it of the first byte of a row, and whether the next ones
/// lie below that.
#[derive(Clone, Copy)]
pub struct Span {
    pub region: usize,
    pub first: usize,
    pub descends: bool,
}

/// Where the n bytes from a on lie, if their addresses are those of one region.
pub fn row(a: u64, n: u8) -> Option<Span>
    ensures { IfSome result (λ s. IsRow a n s) }
{
    if a < LOCK_TABLE_START {
        return None;
    }
    if a < GLOBALS_START {
        return table_row(a, n);
    }
    if a < FRAMES_START {
        return globals_row(a, n);
    }
    frame_row(a, n)
}

fn table_row(a: u64, n: u8) -> Option<Span>
    requires least { lock_table_start ≤ a }
    requires most { a < globals_start }
    ensures { IfSome result (λ s. IsRow a n s) }
{
    if GLOBALS_START - a < n as u64 {
        return None;
    }
    Some(Span {
        region: 0,
        first: (a - LOCK_TABLE_START) as usize,
        descends: false,
    })
}

fn globals_row(a: u64, n: u8) -> Option<Span>
    requires least { globals_start ≤ a }
    requires most { a < frames_start }
    ensures { IfSome result (λ s. IsRow a n s) }
{
    if FRAMES_START - a < n as u64 {
        return None;
    }
    Some(Span {
        region: 1,
        first: (a - GLOBALS_START) as usize,
        descends: false,
    })
}

/// A frame lies at the end of its addresses, and its bytes are counted from there down.
fn frame_row(a: u64, n: u8) -> Option<Span>
    requires { frames_start ≤ a }
    ensures { IfSome result (λ s. IsRow a n s) }
{
    let offset = a - FRAMES_START;
    let room = FRAME_ROOM - offset % FRAME_ROOM;
    if room < n as u64 {
        return None;
    }
    Some(Span {
        region: (offset / FRAME_ROOM) as usize + 2,
        first: room as usize - 1,
        descends: true,
    })
}
