//! When the name `-` is that of a standard stream, and no file's.
ghost use Rattle.std.specs.Prelude.{◌≡◌};
ghost use Rattle.mm_files.specs.Streams.{is_stream};

/// The name of standard input, and of standard output.
pub const STREAM: &str = "-";

/// Whether the name is that of a stream, where there are streams.
pub fn is_stream(streams: bool, name: &str) -> bool
    ensures { result ≡ is_stream streams name.now }
{
    streams && name == STREAM
}
