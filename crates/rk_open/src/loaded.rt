use rk_view::State;

/// A state, and the greatest sequence number of a record in it, 0 with none.
#[derive(Debug, Drop)]
pub(crate) struct Loaded {
    pub(crate) state: State,
    pub(crate) top: u64,
}
