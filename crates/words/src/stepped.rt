// Where a run stands with one kind of turn.

// The registers of an engine, and how many words it has moved, fetched or put out.
#[derive(Clone, Copy)]
pub struct Stepped<S> {
    pub state: S,
    pub count: u32,
}
