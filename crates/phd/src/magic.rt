// The opening string of a dump, as the reader and the writer use it.
ghost use Rattle.std.specs.Prelude.{◌≡◌};
ghost use Rattle.phd.specs.Phd.{bytes_equal, magic};

// The bytes of the opening string.
pub const MAGIC: [u8; 18] = *b"portable heap dump";

// Checks whether the bytes are the opening string.
pub fn is_magic(text: &[u8]) -> bool
    ensures { result ≡ bytes_equal text.now magic }
{
    text == MAGIC.as_slice()
}
