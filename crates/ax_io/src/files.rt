ghost use Rattle.std.specs.Prelude.{◌≡◌, ℕ, ◌+◌, ◌<◌, ◌≤◌, ◌++◌, ◌∷◌, [], List, Option, length, IfOk, IsErrOf};
ghost use Rattle.ax_io.specs.Count.{Rose, RaisesOnly};
ghost use Rattle.ax_io.specs.Files.{Asks, Takes};

use crate::FileFault;
use std::alloc::Global;

/// Files that are read by their names.
///
/// Four meanings belong to a value: `held` is the content of each name where the value tells it,
/// `asked` is the list of the names of all calls so far, `faults` counts the failed calls and never
/// falls, and `taken` is the number of bytes that the last call took.
pub trait Files {
    ghost held: { Self → List ℕ → Option (List ℕ) };

    ghost asked: { Self → List (List ℕ) };

    ghost faults: { Self → ℕ };

    ghost taken: { Self → ℕ };

    /// Reads the whole file of that name, of at most `limit` bytes. The name joins `asked` before
    /// the file is opened.
    ///
    /// `Failed` comes only where `faults` rose in this call, and `TooLong` exactly where `taken` is
    /// above `limit` after it. `Memory` may come at any moment.
    fn read(&mut self, alloc: Global, name: &str, limit: usize) -> Result<Vec<u8>, FileFault>
        ensures whole { IfOk result (λ v. (c : List ℕ) → held self.old name.now ≡ Some c → v.items ≡ c) }
        ensures fits { IfOk result (λ v. (c : List ℕ) → held self.old name.now ≡ Some c → length c ≤ limit) }
        ensures longer { IsErrOf result FileFault.TooLong → (c : List ℕ) → held self.old name.now ≡ Some c → limit < length c }
        ensures takes { Takes limit (taken self.new) result }

        ensures failed { IsErrOf result FileFault.Failed → Rose (faults self.old) (faults self.new) }
        ensures raises { RaisesOnly (faults self.old) (faults self.new) (IsErrOf result FileFault.Failed) }

        ensures asks { Asks (asked self.old) (asked self.new) (taken self.old) (taken self.new) name.now result }
        ensures same { (n : List ℕ) → held self.new n ≡ held self.old n };
}
