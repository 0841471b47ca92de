// Laws of all typed code.

ghost use Rattle.rb_law_types.specs.Code.{TypesKeep, BatchesKeep, ServicesKeep, ServicesEnd};

/// Typed code of the own side ends by a value of its type or by a fault that isn't Kind, and leaves a state that fits,
/// in whatever surroundings, as long as their answers fit and its batches end as statements do.
pub fn typed_code_keeps_types()
    ensures { TypesKeep }
{}

/// So does the code of batches, as long as remote calls give values of their types; as in admitted programs, it is to call
/// no `remote` method, to hold no batch and to print primitive values alone.
pub fn batch_code_keeps_types()
    ensures { BatchesKeep }
{}

/// The code of a typed service asks nothing but whether turns over lists go on, and keeps types.
pub fn service_code_keeps_types()
    ensures { ServicesKeep }
{}

/// So it ends in the surroundings of a service.
pub fn service_code_ends()
    ensures { ServicesEnd }
{}
