// The occurs check as a closure over sets of variables. The set of the variables that occur in each node is made once, as nodes are read (`variables`);
// then "X occurs in the right side, looked at through all bindings" takes at most one step for each bound variable, however often nodes are shared.
#![tactic(auto)]

ghost use Rattle.std.specs.Prelude.{◌<◌, get_or};
ghost use Rattle.bindings.specs.Bindings.{NodesThere};
ghost use Rattle.occurs.specs.Reached.{Closure, OccursAnswered};

use bindings::Made;
use names::{NodeId, Variable};
use sets::VariableSet;
use variables::NodeVariables;

// What is known of variables: which occur in each node, which are bound, and to what.
// No PartialEq: == would compare the lent tables word by word, where two are the same if what they are lent is.
#[derive(Clone, Copy)]
pub struct Known<'a> {
    pub node_variables: &'a NodeVariables,
    pub made: &'a Made,
    pub bound: VariableSet,
    ghost there: { NodesThere 512 made.now bound.0 },
}

impl<'a> Known<'a> {
    // The variables that are reached from a node through bindings: each bound variable is looked through at most once.
    fn reaches(&self, from: NodeId) -> VariableSet
        requires { from.0 < 512 }
        ensures { Closure self.now.bound.0 self.now.made.now self.now.node_variables.now
            (get_or self.now.node_variables.now from.0 0) result.0 }
    {
        let mut reach = variables::of_node(self.node_variables, from);
        let mut waiting = self.bound;
        loop {
            let unseen = waiting.intersection(reach);
            if unseen.is_empty() {
                return reach;
            }
            let x = unseen.lowest();
            waiting = waiting.without(x);
            let value = bindings::node_of(self.made, x);
            let found = variables::of_node(self.node_variables, value);
            reach = reach.union(found);
        }
    }

    // Whether a variable occurs in a node, looked at through all bindings.
    pub fn occurs(&self, x: Variable, node: NodeId) -> bool
        requires { node.0 < 512 }
        ensures { OccursAnswered self.now.bound.0 self.now.made.now self.now.node_variables.now node.0 x.0 result }
    {
        self.reaches(node).has(x)
    }
}
