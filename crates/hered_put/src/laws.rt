//! Laws of the function, stated by functions that do nothing.
ghost use Rattle.hered_put.specs.Laws.{FlattenedIsSound, FlattenedIsTyped, FreelyAnswersAs, FreelyMakes, FunctionIsSound, FunctionIsTyped, FunctionKeepsForms};

/// What the function makes is what the rules of substitution relate, and it goes too far only where a number passes.
pub fn bounded_substitution()
    ensures { FunctionIsSound }
{}

/// Where an assignment of simple types types both sides, the function with the rank of what is put does not give up,
/// and what it makes is typed.
pub fn typed_substitution()
    ensures objects { FunctionIsTyped }
    ensures types { FunctionKeepsForms }
{}

/// The same of an expression whose tuple is put for the variables of a step.
pub fn flattened_substitution()
    ensures sound { FlattenedIsSound }
    ensures typed { FlattenedIsTyped }
{}

/// Where what is written need not fit, the function makes what the rules of substitution relate; and it answers as
/// where it has to fit, unless there it goes too far.
pub fn free_substitution()
    ensures makes { FreelyMakes }
    ensures limit { FreelyAnswersAs }
{}
