//! Laws of eta-long forms, stated by functions that do nothing.
ghost use Rattle.eta_laws.specs.Laws.{EtaCommutes, EtaExpands, EtaIsTyped, EtaRenames, EtaRenamesNoMore, ExpansionLaws, TypedIsEtaLong};
ghost use Rattle.eta_laws.specs.Worked.{FormsWorked};

/// Eta-long forms are typed; to put that of a variable for a variable is to rename, in what is eta-long; and a neutral
/// may be written out where what becomes of it is eta-long.
pub fn eta_long()
    ensures typed { EtaIsTyped }
    ensures renames { EtaRenames }
    ensures counterexample { EtaRenamesNoMore }
    ensures no_metavariables { TypedIsEtaLong }
    ensures expands { EtaExpands }
    ensures commutes { EtaCommutes }
    ensures expansion { ExpansionLaws }
    ensures worked { FormsWorked }
{}
