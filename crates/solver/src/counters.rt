// The rounds and the looks that a run has made.
#[derive(Clone, Copy, Default)]
pub(crate) struct Counters {
    pub(crate) rounds: u32,
    pub(crate) looks: u64,
}
