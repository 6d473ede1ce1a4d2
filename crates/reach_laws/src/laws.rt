//! Laws of reach and rest, stated by functions that do nothing.
ghost use Rattle.reach_laws.specs.Laws.{DownFurther, IsTight, LeftKeeps, PartsStay, PutInAgain, RestSolves};

/// What holds at the end of unification: what its solutions give is tight, and what is left stands for what was given.
pub fn ending()
    ensures tight { IsTight }
    ensures rest_solves { RestSolves }
    ensures left_keeps { LeftKeeps }
{}

/// What stays so while solutions are put in.
pub fn putting_in()
    ensures put_in_again { PutInAgain }
    ensures parts_stay { PartsStay }
    ensures down_further { DownFurther }
{}
