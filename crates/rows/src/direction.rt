// Two values by direction.

// One for offtake and one for feed-in.
#[derive(Clone, Copy, Default)]
pub(crate) struct ByDirection<T> {
    pub(crate) offtake: T,
    pub(crate) feed_in: T,
}
