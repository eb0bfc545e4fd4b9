//! Machine code of middle code, for any instruction set: contracts of lines, and that they compose.
#![tactic(auto)]

mod emitting;
mod labels;
mod laws;
mod runs;
mod sites;

pub use emitting::{EmittedLines, LineEmitter, emit};
pub use labels::Labels;
pub use laws::{
    MiddleProgram, access_line_follows, atomic_line_follows, branched_line_follows,
    computed_line_follows, emitted_code_follows, end_is_behind_code, ended_line_follows,
    label_line_follows, performed_line_follows, places_agree, same_code_is_one_image,
    same_sizes_are_one_place,
};
pub use runs::{Emitted, EmittedCode, emitted_code_runs};
pub use sites::site_ranges;
