//! Names as a layout file has them.
ghost use Rattle.std.specs.Prelude.{◌≡◌, ◌++◌, OnOk, OnErr};
ghost use Rattle.layout_words.specs.Spellings.{name_text};

use crate::line_writer::put_text_of_name;
use names::Name;
use rv_io::{Buf, Memory};

/// Appends a name as it stands at the end of a line: a proper name in Rust's spelling, a raw name in quotes, where `"` and
/// `\` have a `\` before them and what is not printable ASCII is `\x` and two digits. After want of memory `out` is as it was.
pub fn put_name(name: &Name, out: &mut Buf) -> Result<(), Memory>
    // The text of the name is appended.
    ensures put { OnOk result (out.new ≡ out.old ++ name_text name.now) }

    // After want of memory nothing has changed.
    ensures same { OnErr result (out.new ≡ out.old) }
{
    let len = out.as_bytes().len();
    let done = put_text_of_name(name, out);
    if done.is_err() {
        out.truncate(len);
    }
    done
}
