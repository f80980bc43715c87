//! How much a service takes on.

/// How much a service takes on.
#[derive(Clone, Copy, Debug, PartialEq, Eq)]
pub struct Limits {
    /// How many connections it serves before it ends; without end where there is no number.
    pub connections: Option<u64>,
    /// How many clients it serves at once. The next is closed at once.
    pub clients: usize,
    /// After how many seconds it ends a connection on which nothing comes; never where there is no
    /// number.
    pub idle: Option<u64>,
    /// After how many seconds a copy of the tree is made again, where something may have changed; never
    /// where there is no number.
    pub save_every: Option<u64>,
    /// Whether its attendant is asked once a second, also where nothing was reported.
    pub is_watched: bool,
}
