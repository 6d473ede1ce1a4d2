//! Laws of the rules, each stated by a function that does nothing.
ghost use Rattle.typing_laws.specs.Congruence.{JoinedIsCongruence, JoinedIsEquivalenceOnEachSort};
ghost use Rattle.typing_laws.specs.Contexts.{ContextExchange, ContextStrengthening, ContextWeakening};
ghost use Rattle.typing_laws.specs.Held.{AffineWeakening, LettingGo, MentionsHeldAlone};
ghost use Rattle.typing_laws.specs.LostTypes.{ExchangeLosesTypes};
ghost use Rattle.typing_laws.specs.SimpleTyping.{SynthesizedIsSimplyFormed, TypedIsSimplyTyped, WellFormedIsSimplyFormed};
ghost use Rattle.typing_laws.specs.Splits.{SplitAssociates, SplitCommutes, SplitHasNeutral};
ghost use Rattle.typing_laws.specs.Types.{TypeIsOne};
ghost use Rattle.typing_laws.specs.Uses.{LinearOccurs, UsedAtMostOnce};
ghost use Rattle.typing_laws.specs.WorkedTrees.{ExchangeExamples, SubstitutionExamples};

/// What is typed is simply typed and eta-long, what is well formed is simply formed, and so is the type of a neutral.
pub fn simple_typing()
    ensures typed { TypedIsSimplyTyped }
    ensures formed { WellFormedIsSimplyFormed }
    ensures synthesized { SynthesizedIsSimplyFormed }
{}

/// A neutral has one type.
pub fn one_type()
    ensures { TypeIsOne }
{}

/// A typed object mentions variables alone that its holding holds.
pub fn mentions()
    ensures { MentionsHeldAlone }
{}

/// Linear and affine variables are used at most once, and linear ones that are held occur where no `<>` stands.
pub fn used()
    ensures once { UsedAtMostOnce }
    ensures linear { LinearOccurs }
{}

/// What is typed stays typed where more affine entries are held, and where a context has one more entry.
pub fn weakening()
    ensures affine { AffineWeakening }
    ensures context { ContextWeakening }
{}

/// What is typed stays typed where two neighbouring entries of a context change places.
pub fn exchange()
    ensures { ContextExchange }
{}

/// What is typed stays typed where an affine or linear entry that nothing mentions is not held, and without an entry
/// that nothing mentions.
pub fn strengthening()
    ensures letting_go { LettingGo }
    ensures context { ContextStrengthening }
{}

/// A split commutes and associates, and the persistent entries alone take nothing.
pub fn splits()
    ensures commutes { SplitCommutes }
    ensures associates { SplitAssociates }
    ensures neutral { SplitHasNeutral }
{}

/// To be joined is a congruence on objects, neutrals, expressions and tuples.
pub fn congruence()
    ensures equivalence { JoinedIsEquivalenceOnEachSort }
    ensures parts { JoinedIsCongruence }
{}

/// An exchange of steps need not keep the type.
pub fn lost_types()
    ensures { ExchangeLosesTypes }
{}

/// What substitution and exchange make of small trees, and what they do not.
pub fn worked_trees()
    ensures substitution { SubstitutionExamples }
    ensures exchange { ExchangeExamples }
{}
