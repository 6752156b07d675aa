/// What a caller knows, as contracts see it. No value of it is made.
pub struct CallerView<J> {
    pub callers: u64,
    pub index: u64,
    pub job: J,
    pub count: u64,
    pub drawn: [u64; 0],
    pub posted: [u64; 0],
    pub taken: [u64; 0],
    /// The numbers for which a look or take of this caller found a word other than 0.
    pub seen: [u64; 0],
    /// A drawn number that is count or more.
    pub past: Option<u64>,
    /// A number, and the word that the last look or take read for it.
    pub last: Option<(u64, u64)>,
    /// How many looks and takes there were, with no greatest number.
    pub reads: u64,
}
