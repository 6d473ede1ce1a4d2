//! Laws of rests while the store grows, stated by functions that do nothing.
ghost use Rattle.rest_laws.specs.Laws.{CallsInTurn, LaterAbsorbs, RestGrows, RestOfRest};

/// What is left of equations, in a store that grows.
pub fn rests()
    ensures rest_grows { RestGrows }
    ensures rest_of_rest { RestOfRest }
    ensures later_absorbs { LaterAbsorbs }
    ensures calls_in_turn { CallsInTurn }
{}
