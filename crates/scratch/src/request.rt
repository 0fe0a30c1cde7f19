// What a computation from scratch is asked.

// The constraints of a catalog that `indices` names, between variables of these sizes.
#[derive(Drop)]
pub(crate) struct Request<'a, C> {
    pub catalog: &'a C,
    pub sizes: &'a [usize],
    pub indices: &'a [usize],
}
