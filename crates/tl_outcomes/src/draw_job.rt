//! What is drawn.

use tl_region::Region;
use tl_text::SampleJob;

/// Plain data that names what is drawn, as contracts see it. No value of it is made.
pub struct DrawJob {
    pub region: Region,
    pub job: SampleJob,
    /// Whether the rank of each sample is noted, in the place of its drawing.
    pub is_ranked: bool,
}
