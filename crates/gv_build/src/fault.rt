//! Why bytes are not made.
use gv_view::TooLarge;
use refused::Refused;

/// Why bytes are not made: the value lies beyond a limit, or there would be over 4,294,967,295 bytes; or memory ran out.
pub type BuildFault = Refused<TooLarge>;
