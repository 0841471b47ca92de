// Laws of scripts.

ghost use Rattle.rb_law_types.specs.NodeFaults.{NodesHoldTheFault};
ghost use Rattle.rb_law_types.specs.Nodes.{NodesStayWithin};
ghost use Rattle.rb_law_types.specs.Scripts.{ScriptsKeep};

/// A script on typed classes and a table that fits leaves a table that fits, and gives a node with the entries of its
/// steps, all within their limits.
pub fn scripts_keep_tables()
    ensures { ScriptsKeep }
{}

/// That node is no deeper than the script's blocks, and each node in it has at most as many entries as its block has
/// steps, and one more.
pub fn nodes_stay_within_scripts()
    ensures { NodesStayWithin }
{}

/// In the node of any script's run stands the fault that stopped it, with its position, and no other.
pub fn nodes_hold_the_fault()
    ensures { NodesHoldTheFault }
{}
