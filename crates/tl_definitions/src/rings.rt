//! The places round a corner.

/// A place of a corner's ring: so many rows up and columns left of the corner's own coordinates.
#[derive(Clone, Copy)]
pub struct Back {
    pub rows: u32,
    pub columns: u32,
}

/// A dart of a corner: an edge that ends there, between two consecutive cells of its ring, the one on the
/// left as seen from the corner first.
#[derive(Clone, Copy)]
pub struct Dart {
    pub left: Back,
    pub right: Back,
}
