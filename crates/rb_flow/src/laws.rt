// Laws of admission.

ghost use Rattle.rb_flow.specs.Laws.{EachBadPartHasARefusal, AdmittedSendPortable};

/// In a lawful program each bad part of what is sent is the place of a refusal: a Flow that has the
/// least chain to it, or NotConstant where no chain leads to it.
pub fn each_bad_part_has_a_refusal()
    ensures { EachBadPartHasARefusal }
{}

/// In a lawful program without a refusal the receivers and arguments of remote calls, and what loops
/// over rows go over, are portable where they stand.
pub fn admitted_programs_send_only_portable_parts()
    ensures { AdmittedSendPortable }
{}
