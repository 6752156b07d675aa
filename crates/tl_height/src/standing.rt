//! How a tiling stands at an inner corner.

/// How a tiling stands at an inner corner. The cells round the corner can be paired in two ways, and a flip
/// exchanges the one for the other.
#[derive(Clone, Copy, Debug, PartialEq, Eq)]
pub enum Standing {
    /// Each dark cell round the corner shares its tile with the next cell clockwise.
    High,
    /// Each dark cell round the corner shares its tile with the next cell counter-clockwise.
    Low,
    /// Some tile leads away from the cells round the corner.
    No,
}
