// The work tables that the entries are lent, by their owners' names: who stands above the solver needs to know no room below it.
pub use bindings::{Bindings, EMPTY_MADE, EMPTY_VALUES, Made, Values};
pub use demands::{Asked, Demands, EMPTY_ASKED, EMPTY_FIRSTS, Firsts};
pub use fresh::{EMPTY_MARKS, Marks};
pub use perform::Work;
pub use problem::{Assumed, EMPTY_ASSUMED, EMPTY_PLACES, Places};
pub use stack::{EMPTY_HEADS, EMPTY_IMAGES, Heads, Images, Stack};
pub use variables::{EMPTY_NODE_VARIABLES, NodeVariables};

// All that an entry works in, lent together: what the reader leaves, what a run works in, and the marks of what comes after it. The tables may hold anything.
#[derive(Drop)]
pub struct Tables<'a> {
    pub places: &'a mut Places,
    pub assumed: &'a mut Assumed,
    pub node_variables: &'a mut NodeVariables,
    pub work: Work<'a>,
    pub marks: &'a mut Marks,
}
