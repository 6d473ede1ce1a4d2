//! Laws of gathering, stated by functions that do nothing.
ghost use Rattle.gathering.specs.Laws.{ConformingGathers, GatheredIsTyped, GatheringIsKept, GatheringIsOne, GatheringTypes, InstanceSolves, SettingOfSignature, TypedConforms, TypedInstanceGathers, WellFormedSolves};

/// What is gathered is determined, and there is something to gather of what conforms, as all does that has a
/// type. The equations are simply typed.
pub fn gathered()
    ensures one { GatheringIsOne }
    ensures conforming { ConformingGathers }
    ensures typed { TypedConforms }
    ensures equations { GatheredIsTyped }
{}

/// An instance with a type gathers, under its holding, and solves what is gathered.
pub fn instances()
    ensures solves { InstanceSolves }
    ensures gathers { TypedInstanceGathers }
{}

/// Where nothing is unknown, gathering of equations that hold is typing.
pub fn typing()
    ensures { GatheringTypes }
{}

/// Of an instance the instances of the equations are gathered.
pub fn kept()
    ensures { GatheringIsKept }
{}

/// Where an instance of a type, telescope or kind is well formed, it solves what is gathered.
pub fn items()
    ensures { WellFormedSolves }
{}

/// The setting of a well-formed signature meets what the laws ask.
pub fn settings()
    ensures { SettingOfSignature }
{}
