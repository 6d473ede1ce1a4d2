//! Laws of the places of metavariables, stated by functions that do nothing.
ghost use Rattle.pattern_laws.specs.Laws.{CoversWhereNoForeign, EndsAreHeld, OneReading, OrderedHasNoCircle, SamePlaces};

/// Places are determined, and a set of places can be grown until it holds all from which the way comes to an end.
pub fn reading()
    ensures one_reading { OneReading }
    ensures same_places { SamePlaces }
    ensures ends_are_held { EndsAreHeld }
    ensures ordered_has_no_circle { OrderedHasNoCircle }
    ensures covers_where_no_foreign { CoversWhereNoForeign }
{}
