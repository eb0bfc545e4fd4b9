//! What holds of every layout: objects, lock words and frames lie apart.

ghost use Rattle.std.specs.Prelude.{ℕ, ◌<◌};
ghost use Rattle.ax_map.specs.Map.{lock_index_of};
ghost use Rattle.ax_layout.specs.Regions.{InLayouts, AllLie, AreApart, AreInTheirRegion, AreOfOneClass, AreThoseOfTheModule, FramesAreApart, LocksAreApart, MultiplesAreNext};

/// A layout has the module's globals, each at the first multiple of its alignment from the end of
/// the one before on. Each of their elements lies between 0x10000 and the end of the globals, which is at
/// most 0x110000; two elements that share a byte are one, and no element shares a byte with the
/// lock table or with a frame.
pub fn objects_are_apart()
    ensures next { MultiplesAreNext }
    ensures globals { InLayouts AreThoseOfTheModule }
    ensures lie { InLayouts AllLie }
    ensures apart { InLayouts AreApart }
    ensures region { InLayouts AreInTheirRegion }
{}

/// All elements of a global have one class, since an element's distance from the next is its size.
#[tactic(auto, using(crate::proofs::Elements::one_class))]
pub fn globals_have_one_class()
    ensures { InLayouts AreOfOneClass }
{}

/// A byte of a lock's word lies in the lock table, and in no frame and no other lock's word; a byte
/// of a frame lies in no other frame.
#[tactic(auto, using(crate::proofs::LockWords::locks_apart, crate::proofs::LockWords::frames_apart, crate::proofs::LockWords::index_below))]
pub fn locks_and_frames_are_apart()
    ensures index { (a : ℕ) → lock_index_of a < 256 }
    ensures locks { LocksAreApart }
    ensures frames { FramesAreApart }
{}
