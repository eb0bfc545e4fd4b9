//! The targets and their names.

ghost use Rattle.std.specs.Prelude.{◌≡◌, IfSome, Some, Contains};
ghost use Rattle.ax_target.specs.Targets.{accepted_targets, name_of, target_named};

/// A processor that code is made for, with the extensions that atomics use.
#[derive(Clone, Copy)]
pub enum Target {
    /// x86-64; `cx16` is the instruction `cmpxchg16b`.
    X86 { cx16: bool },
    /// AArch64; `lse` is the Large System Extensions.
    Arm { lse: bool },
    /// RV64 with the A extension; `zabha` is atomics of bytes and halfwords, `zacas` is
    /// compare-and-swap. No table looks at the two yet.
    Rv { zabha: bool, zacas: bool },
}

impl Target {
    /// The target's name: the processor, and its extensions behind a `+` each.
    pub fn name(self) -> &'static str
        ensures { result.now ≡ name_of self }
    {
        match self {
            Target::X86 { cx16: false } => "x86-64",
            Target::X86 { cx16: true } => "x86-64+cx16",
            Target::Arm { lse: false } => "aarch64",
            Target::Arm { lse: true } => "aarch64+lse",
            Target::Rv {
                zabha: false,
                zacas: false,
            } => "rv64",
            Target::Rv {
                zabha: true,
                zacas: false,
            } => "rv64+zabha",
            Target::Rv {
                zabha: false,
                zacas: true,
            } => "rv64+zacas",
            Target::Rv {
                zabha: true,
                zacas: true,
            } => "rv64+zabha+zacas",
        }
    }
}

/// The target of a name. None exactly where the word is none of `x86-64`, `x86-64+cx16`,
/// `aarch64`, `aarch64+lse` and `rv64`.
pub fn named(word: &str) -> Option<Target>
    ensures value { result ≡ target_named word.now }
    ensures spelled { IfSome result (λ target. name_of target ≡ word.now) }
{
    match word {
        "x86-64" => Some(Target::X86 { cx16: false }),
        "x86-64+cx16" => Some(Target::X86 { cx16: true }),
        "aarch64" => Some(Target::Arm { lse: false }),
        "aarch64+lse" => Some(Target::Arm { lse: true }),
        "rv64" => Some(Target::Rv {
            zabha: false,
            zacas: false,
        }),
        _ => None,
    }
}

/// Each accepted target's name names it.
pub fn targets_are_named()
    ensures { (target : Target) → Contains accepted_targets target → target_named (name_of target) ≡ Some target }
{}
