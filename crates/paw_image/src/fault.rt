// Why a part of an image can't be read.

use paw_read_error::read_error::ReadError;

/// Why a part of an image can't be read: lack of memory, or its first field that isn't all there or has no meaning. The
/// number is how many bytes are left from that field's first byte on.
pub type ReadFault = ReadError<usize>;
