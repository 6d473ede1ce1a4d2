//! What holds of the definitions of the rounds.
ghost use Rattle.clf_sig.specs.Entry.{PlainSignature};
ghost use Rattle.celf_sugar.specs.PlainTree.{DesugaredBody};
ghost use Rattle.celf_implicit.specs.Laws.{LeastClosed};
ghost use Rattle.celf_implicit.specs.Worked.{WorkedOrders, WorkedVariables};

/// The determined variables of an item are the least closed set of variables.
pub fn least_closed()
    ensures { (sig : PlainSignature) (body : DesugaredBody) → LeastClosed sig body }
{}

/// Some items have the implicit variables that are worked out for them by hand.
pub fn worked_variables()
    ensures { WorkedVariables }
{}

/// Some items have their variables in the order that is worked out for them by hand.
pub fn worked_orders()
    ensures { WorkedOrders }
{}
