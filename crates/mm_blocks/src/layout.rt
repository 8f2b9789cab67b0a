//! How an array of blocks lies in memory: whole, or in chunks.
ghost use Rattle.std.specs.Prelude.{◌≡◌, ◌*◌, ◌≤◌};
ghost use Rattle.mm_blocks.specs.Layout.{chunk_of, place_in, chunk_len};
ghost use Rattle.mm_blocks.specs.declared.layout.Layout.TheVariants.{Chunks};

/// The blocks of a chunk.
pub const CHUNK: usize = 64;

/// One chunk for all blocks, or chunks of `CHUNK` blocks.
#[derive(Clone, Copy)]
pub(crate) enum Layout {
    Whole,
    Chunks,
}

impl Layout {
    // The chunk that a place stands in.
    #[inline(always)]
    pub(crate) fn chunk_of(self, place: usize) -> usize
        ensures { result ≡ chunk_of self place }
    {
        match self {
            Layout::Whole => 0,
            Layout::Chunks => place / CHUNK,
        }
    }

    // The place there.
    #[inline(always)]
    pub(crate) fn place_in(self, place: usize) -> usize
        ensures { result ≡ place_in self place }
    {
        match self {
            Layout::Whole => place,
            Layout::Chunks => place % CHUNK,
        }
    }

    // The blocks of a chunk, in an array of `room` blocks.
    pub(crate) fn chunk_len(self, room: usize, chunk: usize) -> usize
        requires { self ≡ Chunks → chunk * CHUNK ≤ room }
        ensures { result ≡ chunk_len self room chunk }
    {
        match self {
            Layout::Whole => room,
            Layout::Chunks => CHUNK.min(room - chunk * CHUNK),
        }
    }
}
