//! What bytes lack of a piece of an entry that doesn't stand at their beginning.

/// What bytes lack of a piece of an entry that doesn't stand at their beginning.
#[derive(Clone, Copy, Debug, Drop, PartialEq, Eq)]
pub(crate) enum Lack<'a> {
    /// Its end alone: some bytes to come complete it.
    Unfinished,
    /// They break off: what stands before these last ones is the beginning of one, and with the
    /// first of them it isn't, whatever comes behind it.
    Broken(&'a [u8]),
}
