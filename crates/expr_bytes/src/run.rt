//! Where the operations of one place end (DWARF 5, 2.6.1).
ghost use Rattle.std.specs.Prelude.{◌≡◌, ◌↔◌, true};
ghost use Rattle.expr_bytes.specs.Runs.{Ends};

use crate::code;
use rv_bytes::Cut;

/// Whether no bytes follow, or a piece: the operations of a place end there.
pub fn ends(cut: &Cut<'_>) -> bool
    ensures { result ≡ true ↔ Ends cut.now.rest }
{
    match cut.copy().u8() {
        Ok(next) => next == code::PIECE,
        Err(_) => true,
    }
}
