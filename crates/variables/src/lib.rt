// By node the set of the variables that occur in it, made from the sets of its parts as the nodes are read. What lies where is known here alone.
#![tactic(auto)]

ghost use Rattle.std.specs.Prelude.{◌≡◌, ◌<◌, length, set};
ghost use Rattle.variables.specs.Variables.{set_of};

use names::{MOST_NODES, NodeId};
use sets::{Set, VariableSet};

pub type NodeVariables = [u64; MOST_NODES];

pub const EMPTY_NODE_VARIABLES: NodeVariables = [0; MOST_NODES];

// The set that the table has for a node.
pub fn of_node(node_variables: &NodeVariables, node: NodeId) -> VariableSet
    requires { node.0 < 512 }
    ensures { result.0 ≡ set_of node_variables.now node.0 }
{
    let n = usize::from(node.0);
    Set(node_variables[n])
}

// The set is put down for node n. The table comes as a slice: so its length is known.
pub fn put(node_variables: &mut [u64], n: usize, variables: VariableSet)
    requires { n < length node_variables.old }
    ensures { node_variables.new ≡ set node_variables.old n variables.0 }
{
    node_variables[n] = variables.0;
}
