//! Why a header can't be read.

/// Why a header can't be read. Where several hold, the first in this order is told.
#[derive(Clone, Copy, Debug, PartialEq, Eq)]
pub enum HeaderFault {
    /// A header line has a CR that no LF follows.
    LoneCr,
    /// A header line is neither a field nor the continuation of one.
    BadLine,
    /// The header is longer than 262,144 bytes, each line counted with a CRLF and the empty line not counted.
    LongHeader,
    NoMemory,
}
