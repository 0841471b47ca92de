// Laws of services that others rest on. They take no memory, and call those that they rest on.

ghost use Rattle.std.specs.Prelude.{ℕ, List};
ghost use Rattle.rb_meaning.specs.ServiceSources.{ReadsAsService};
ghost use Rattle.rb_parse.specs.Outcomes.{AtMostOne, AtLeastOne};

use rb_parse::{every_service_source_has_an_outcome, service_sources_have_one_outcome};

/// A source has at most one outcome as a service: the service with its table, or a refusal.
pub fn sources_have_one_outcome_as_services()
    ensures { (source : List ℕ) → AtMostOne (ReadsAsService source) }
{
    service_sources_have_one_outcome();
}

/// A source has an outcome as a service.
pub fn every_source_has_an_outcome_as_a_service()
    ensures { (source : List ℕ) → AtLeastOne (ReadsAsService source) }
{
    every_service_source_has_an_outcome();
}
