//! The formats: lines and sections of an input, region texts, drawings and obstruction texts.
//!
//! The crate has no code. `docs/FORMATS.md` tells the formats.
#![tactic(auto)]

/// The most bytes that an input may have, and so a section of it.
pub const INPUT_LIMIT: usize = 4_194_304;
