//! The rules and their numbers.

ghost use Rattle.std.specs.Prelude.{◌≡◌};
ghost use Rattle.ax_rules.specs.Points.{number_of};

/// What a module can be refused for, in the order of the numbers N1 to N12.
#[derive(Clone, Copy)]
pub enum Rule {
    Width,
    Kind,
    DynamicShift,
    UserCall,
    Parameter,
    BadOrdering,
    MixedWidth,
    AlignOverstated,
    PlainLocked,
    NotDefined,
    Alloca,
    Limit,
}

impl Rule {
    /// The rule's number, from 1 to 12.
    pub fn number(self) -> u8
        ensures { result ≡ number_of self }
    {
        match self {
            Rule::Width => 1,
            Rule::Kind => 2,
            Rule::DynamicShift => 3,
            Rule::UserCall => 4,
            Rule::Parameter => 5,
            Rule::BadOrdering => 6,
            Rule::MixedWidth => 7,
            Rule::AlignOverstated => 8,
            Rule::PlainLocked => 9,
            Rule::NotDefined => 10,
            Rule::Alloca => 11,
            Rule::Limit => 12,
        }
    }
}
