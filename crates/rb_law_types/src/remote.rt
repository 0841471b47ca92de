// Laws of remote calls.

ghost use Rattle.rb_law_types.specs.Far.{FittingAreBounded, RemoteCallsGiveFar};
ghost use Rattle.rb_law_types.specs.Remote.{CallsKeep};

/// A remote call on typed classes leaves a table that fits; it gives a value of the kind asked for, or a fault that is
/// Kind only where the receiver isn't remote.
pub fn remote_calls_keep_tables()
    ensures { CallsKeep }
{}

/// A value that fits a type is within its limits, and a call of an interface's method has a type that may come from a
/// remote object.
pub fn remote_calls_are_typed()
    ensures sent { FittingAreBounded }
    ensures given { RemoteCallsGiveFar }
{}
