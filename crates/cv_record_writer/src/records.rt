//! A record: its length, and its content.
ghost use Rattle.std.specs.Prelude.{◌≡◌, ◌≤◌, ◌+◌, ◌++◌, length, OnOk, OnErr};
ghost use Rattle.cv_parts.specs.Puts.{pad_size};
ghost use Rattle.cv_record_writer.specs.Contents.{zeros, record_bytes};

use rv_bytes::put_u16;
use rv_io::{Buf, Memory};

/// How many bytes bring a content, with the two bytes of its length in front, to a multiple of 4. Takes no memory.
pub(crate) fn pad_of(content: &[u8]) -> usize
    ensures { result ≡ pad_size (2 + length content.now) }
{
    (4 - (2 + content.len() % 4) % 4) % 4
}

/// Appends to a content the zeros that bring its record to a multiple of 4.
pub(crate) fn put_zeros(content: &mut Buf) -> Result<(), Memory>
    ensures { OnOk result (content.new ≡ content.old ++ zeros (pad_size (2 + length content.old))) }
{
    let size = pad_of(content.as_bytes());
    content.put(&[0, 0, 0][..size])
}

/// Appends the length of a content, and the content. Out of memory, the buffer is as it was.
pub fn put_record(out: &mut Buf, content: &[u8]) -> Result<(), Memory>
    requires { length content.now ≤ 65535 }
    ensures appended { OnOk result (out.new ≡ out.old ++ record_bytes content.now) }
    ensures same { OnErr result (out.new ≡ out.old) }
{
    let len = out.as_bytes().len();
    put_u16(out, content.len() as u16)?;
    let put = out.put(content);
    if put.is_err() {
        out.truncate(len);
    }
    put
}
