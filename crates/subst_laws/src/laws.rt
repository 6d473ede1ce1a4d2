//! Laws of substitution and instantiation, stated by functions that do nothing.
ghost use Rattle.subst_laws.specs.Laws.{Agreement, ComposedIsTyped, Composition, GoesOverIsTyped, InsertedUnder, InstancesOfInstances, InstantIsEnvironment, NeutralHasOneType, PutCommutes, RenamingKeepsFormed, RenamingKeepsTypes, SingleGoesOver, UnderBinders, UnderContext, UnderGoesOver, UnderRenames, Unmoved};

/// Renamings keep simple types, and a neutral has one.
pub fn simple_types()
    ensures renamed { RenamingKeepsTypes }
    ensures formed { RenamingKeepsFormed }
    ensures neutral { NeutralHasOneType }
{}

/// Two typed environments in turn are one, which is typed. What an environment does is determined by what it does at
/// the heads that have types.
pub fn environments()
    ensures composed { Composition }
    ensures composed_typed { ComposedIsTyped }
    ensures agreeing { Agreement }
    ensures unmoved { Unmoved }
{}

/// Environments under binders, and those that go over another.
pub fn under_binders()
    ensures binders { UnderBinders }
    ensures context { UnderContext }
    ensures renamed { UnderRenames }
    ensures over { UnderGoesOver }
    ensures one_over { SingleGoesOver }
    ensures typed_over { GoesOverIsTyped }
    ensures inserted { InsertedUnder }
{}

/// An environment commutes with the substitution of an object for a variable.
pub fn commuting()
    ensures { PutCommutes }
{}

/// Instantiations are environments: typed ones and composed ones. Two in turn are one.
pub fn instantiation()
    ensures environment { InstantIsEnvironment }
    ensures in_turn { InstancesOfInstances }
{}
