//! The two classes of objects.

/// Whether the target's own instructions reach an object whole, or a lock guards it.
#[derive(Clone, Copy)]
pub enum Class {
    Native,
    Locked,
}
