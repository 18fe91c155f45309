//! The rules by which steps are refused.

ghost use Rattle.std.specs.Prelude.{◌≡◌};
ghost use Rattle.ped_steps.specs.RuleNames.{number_of, name_of};

/// A rule that forbids a step, in the order of the numbers 1 to 20 (ParaScope; this project).
#[derive(Clone, Copy, PartialEq, Eq)]
pub enum Rule {
    /// The statement is no DO.
    NoLoop,
    /// The body of the DO is more or less than one DO.
    NotPerfect,
    /// A DO is parallel that mustn't be, or the other way around.
    ParallelState,
    /// A DO has a PRIVATE list.
    HasPrivate,
    /// The variable of a DO is read outside it.
    IndexEscapes,
    /// A bound may change while the DO runs.
    BoundNotPlain,
    /// A bound names the outer variable in a form that can't be solved for it.
    BoundsShape,
    /// The increment is another one than the step takes.
    StepShape,
    /// A new bound or value lies too far from zero.
    Range,
    /// No DO that goes with the first follows it.
    NoNeighbour,
    /// The statements of the body all depend on each other.
    OneBlock,
    /// A scalar is read before it is assigned in an iteration, or after the DO.
    ExposedOrLive,
    /// The name isn't that of a scalar that the step can take.
    NotScalar,
    /// A bound isn't constant, or there is no iteration.
    NotConstant,
    /// The new program passes a limit.
    Limit,
    /// The factor or the size isn't allowed.
    BadFactor,
    /// The name is in a PRIVATE list.
    AlreadyPrivate,
    /// There is no pending dependence to reject.
    NothingToReject,
    /// A statement refers to a name of the list and adds nothing to it, or refers to it twice.
    NotSum,
    /// The statement isn't the block of a call.
    NoCall,
}

impl Rule {
    /// The number of this rule, 1 to 20: of the rules that forbid a step the least counts.
    pub fn number(self) -> u8
        ensures { result ≡ number_of self }
    {
        match self {
            Rule::NoLoop => 1,
            Rule::NotPerfect => 2,
            Rule::ParallelState => 3,
            Rule::HasPrivate => 4,
            Rule::IndexEscapes => 5,
            Rule::BoundNotPlain => 6,
            Rule::BoundsShape => 7,
            Rule::StepShape => 8,
            Rule::Range => 9,
            Rule::NoNeighbour => 10,
            Rule::OneBlock => 11,
            Rule::ExposedOrLive => 12,
            Rule::NotScalar => 13,
            Rule::NotConstant => 14,
            Rule::Limit => 15,
            Rule::BadFactor => 16,
            Rule::AlreadyPrivate => 17,
            Rule::NothingToReject => 18,
            Rule::NotSum => 19,
            Rule::NoCall => 20,
        }
    }

    /// The name of this rule, as it is printed.
    pub fn name(self) -> &'static [u8]
        ensures { result.now ≡ name_of self }
    {
        match self {
            Rule::NoLoop => b"NoLoop",
            Rule::NotPerfect => b"NotPerfect",
            Rule::ParallelState => b"ParallelState",
            Rule::HasPrivate => b"HasPrivate",
            Rule::IndexEscapes => b"IndexEscapes",
            Rule::BoundNotPlain => b"BoundNotPlain",
            Rule::BoundsShape => b"BoundsShape",
            Rule::StepShape => b"StepShape",
            Rule::Range => b"Range",
            Rule::NoNeighbour => b"NoNeighbour",
            Rule::OneBlock => b"OneBlock",
            Rule::ExposedOrLive => b"ExposedOrLive",
            Rule::NotScalar => b"NotScalar",
            Rule::NotConstant => b"NotConstant",
            Rule::Limit => b"Limit",
            Rule::BadFactor => b"BadFactor",
            Rule::AlreadyPrivate => b"AlreadyPrivate",
            Rule::NothingToReject => b"NothingToReject",
            Rule::NotSum => b"NotSum",
            Rule::NoCall => b"NoCall",
        }
    }
}
