//! Which way heights are moved.

/// Which way heights are moved.
#[derive(Clone, Copy)]
pub(crate) enum Direction {
    Up,
    Down,
}
