//! Memories of identities: what they answer, and how they hold their entries.

pub(crate) mod entry;
pub(crate) mod listed;
pub(crate) mod moment_table;
pub(crate) mod plain_recall;
pub(crate) mod recall;
pub(crate) mod renewing;
pub(crate) mod renewing_recall;
pub(crate) mod ring_recall;
