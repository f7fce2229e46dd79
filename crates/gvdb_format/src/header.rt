//! The fixed parts: what each file begins with, what each table begins with, and the name of the table of locks.
ghost use Rattle.std.specs.Prelude.{◌≡◌, ◌+◌, ◌*◌, ◌<◌, ◌^◌};

/// What each database begins with.
pub const SIGNATURE: &[u8] = b"GVariant";

/// How many bytes a file's header has: the signature, the version, the options, and a pointer to the root table.
pub const HEADER_LEN: usize = 24;

/// The name of the item that points to the table of locks.
pub const LOCKS: &str = ".locks";

/// How many bytes a table's head has: two numbers.
pub const HEAD_LEN: usize = 8;

/// How many bytes a bloom word has, and a bucket.
pub const WORD_LEN: usize = 4;

/// The first number of a head is so many times the bloom words' shift, and their number.
pub(crate) const SHIFT_UNIT: u32 = 1 << 27;

/// The first number of the head of a table of so many bloom words, whose second hash is shifted so far.
pub fn head_number(bloom_words: u32, bloom_shift: u32) -> u32
    requires words { bloom_words < 2 ^ 27 }
    requires shift { bloom_shift < 32 }
    ensures { result ≡ bloom_words + bloom_shift * 2 ^ 27 }
{
    bloom_words + bloom_shift * SHIFT_UNIT
}
