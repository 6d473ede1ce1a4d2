//! Laws of what unification answers, stated by functions that do nothing.
ghost use Rattle.answer_laws.specs.Laws.{AbsorbedAgain, RestsInTurn, SidePutIn, TracedInTurn};
ghost use Rattle.answer_laws.specs.Worked.{CircleIsNoAnswer, ClashIsAtPart, CornerAtMonad, NothingForeignIsLeft, PatternIsNotLeft};

/// What several calls do, one after the other.
pub fn in_turn()
    ensures rests { RestsInTurn }
    ensures traced { TracedInTurn }
{}

/// What solutions are made of once all are put in.
pub fn origins()
    ensures side_put_in { SidePutIn }
    ensures absorbed_again { AbsorbedAgain }
{}

/// Some equations, worked out by hand.
pub fn examples()
    ensures circle { CircleIsNoAnswer }
    ensures clash { ClashIsAtPart }
    ensures foreign { NothingForeignIsLeft }
    ensures pattern { PatternIsNotLeft }
    ensures corner { CornerAtMonad }
{}
