//! The configuration of a row.

/// The configuration of a row: whose names it has.
#[derive(Clone, Copy)]
pub struct RowConfig {
    /// How many members the cluster has, 1 to 8.
    pub members: u32,
    /// The key under which names are hashed.
    pub key: [u8; 16],
}
