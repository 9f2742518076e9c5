/// Why a word names no format, the first of these that holds.
#[derive(Clone, Copy, Debug, PartialEq, Eq, Drop)]
pub enum FormatFault {
    /// A letter is none of the six.
    BadLetter,
    /// There aren't as many letters as the tensor has modes.
    BadLength,
    /// The order isn't the tensor's modes in some order, as single digits joined by commas.
    BadOrder,
    /// A level with groups has no singleton level directly below it, or a singleton level none with groups directly
    /// above it.
    BadChain,
    /// Below a hashed level is one that can't be inserted into.
    BelowHashed,
}
