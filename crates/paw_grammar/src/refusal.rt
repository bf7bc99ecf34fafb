// Why a line isn't read.

use paw_base::fault::SourceKind;
use paw_read_error::read_error::ReadError;

/// Why a line isn't read: lack of memory, or its first fault.
pub type LineError = ReadError<SourceKind>;
