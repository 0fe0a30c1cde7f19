use crate::state::State;

mod asking;
mod changing;
mod checks;
mod knowing;
mod making;

// Variables, and the constraints of a catalog, some of which are in.
#[derive(Drop)]
pub struct Network<C> {
    catalog: C,
    state: State,
}
