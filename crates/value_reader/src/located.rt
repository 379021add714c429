//! Where a value is, as a view can be lent of it.
ghost use Rattle.std.specs.Prelude.{◌≡◌};

use image_view::{Chunk, Image};
use rv_io::List;
use snapshot_file::Mem;
use std::marker::Model;

/// The places of a value: chunks, of which each begins where the one before ends, and the memory that they take from.
#[derive(Drop)]
pub struct Located<'a> {
    pub(crate) mem: &'a Mem,
    pub(crate) chunks: List<Chunk<'a>>,
    pub(crate) len: u32,
}

impl<'a> Model for Located<'a> {
    ghost use Rattle.std.specs.Prelude.{List};
    ghost use Rattle.image_view.specs.Places.{Place, chunk_places, Rise};

    ghost Value = { List Place };

    ghost view = { λ l. chunk_places l.mem.now l.chunks 0 l.len };

    ghost invariant = { λ l. Rise 0 l.chunks };
}

impl<'a> Located<'a> {
    /// The view of all places. Takes no memory.
    pub fn image(&self) -> Image<'_>
        ensures { result ≡ self.now }
    {
        Image::of_chunks(self.mem, &self.chunks, self.len)
    }
}
