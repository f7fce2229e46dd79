//! The hash of a name: Bernstein's, over bytes that are taken as signed numbers.
ghost use Rattle.std.specs.Prelude.{◌≡◌, ◌+◌, ◌*◌, ◌%◌, ◌^◌, ℕ, [], fold};
ghost use Rattle.dconf_model.specs.Bytes.{hash_of, hash_step};

/// The hash of no bytes.
pub const HASH_OF_NOTHING: u32 = 5381;

/// How many times as much a byte counts as the one after it, and as the second, third and fourth after it.
pub const STEP: u32 = 33;

const TWO_STEPS: u32 = STEP * STEP;

const THREE_STEPS: u32 = TWO_STEPS * STEP;

const FOUR_STEPS: u32 = THREE_STEPS * STEP;

/// The hash of a name's bytes, by which a table's items are sorted into buckets. It looks at each byte once.
#[tactic(auto, using(crate::proofs::HashFours::joined_fours))]
pub fn hash(name: &[u8]) -> u32
    ensures { result ≡ hash_of name.now }
{
    let (fours, rest) = name.as_chunks();
    hash_one_by_one(hash_in_lanes(fours), rest)
}

/// A hash as four sums: of the bytes at each fourth place, from the first, second, third and fourth on. A processor does
/// the four at once.
#[derive(Clone, Copy)]
struct Lanes {
    first: u32,
    second: u32,
    third: u32,
    fourth: u32,
}

impl Lanes {
    ghost use Rattle.gvdb_hash.specs.HashLanes.{lanes_hash};

    /// The sums, with four bytes more.
    #[tactic(auto, using(crate::proofs::HashLaneLaws::lanes_go_on))]
    #[inline(always)]
    fn with(self, four: &[u8; 4]) -> Lanes
        ensures { lanes_hash result ≡ fold hash_step (lanes_hash self) four.now }
    {
        Lanes {
            first: self
                .first
                .wrapping_mul(FOUR_STEPS)
                .wrapping_add(signed(four[0])),
            second: self
                .second
                .wrapping_mul(FOUR_STEPS)
                .wrapping_add(signed(four[1])),
            third: self
                .third
                .wrapping_mul(FOUR_STEPS)
                .wrapping_add(signed(four[2])),
            fourth: self
                .fourth
                .wrapping_mul(FOUR_STEPS)
                .wrapping_add(signed(four[3])),
        }
    }

    /// The hash.
    #[inline(always)]
    fn hash(self) -> u32
        ensures { result ≡ lanes_hash self }
    {
        self.first
            .wrapping_mul(THREE_STEPS)
            .wrapping_add(self.second.wrapping_mul(TWO_STEPS))
            .wrapping_add(self.third.wrapping_mul(STEP))
            .wrapping_add(self.fourth)
    }
}

/// The hash of groups of four bytes.
#[inline(always)]
fn hash_in_lanes(fours: &[[u8; 4]]) -> u32
    ensures { result ≡ fold (fold hash_step) (hash_of []) fours.now }
{
    let mut lanes = Lanes {
        first: 0,
        second: 0,
        third: 0,
        fourth: HASH_OF_NOTHING,
    };
    for four in fours {
        lanes = lanes.with(four);
    }
    lanes.hash()
}

/// The hash of some bytes and of those after them, of the hash of the first. So a name's hash goes on from its
/// directory's. It looks at each byte once, and takes them by fours where it can: that is fewer steps.
#[tactic(auto, using(crate::proofs::HashFours::joined_fours))]
pub fn hash_on(hash: u32, bytes: &[u8]) -> u32
    ensures { result ≡ fold hash_step hash bytes.now }
{
    let (fours, rest) = bytes.as_chunks();
    hash_one_by_one(hash_by_fours(hash, fours), rest)
}

/// The same, of groups of four bytes.
#[inline(always)]
fn hash_by_fours(hash: u32, fours: &[[u8; 4]]) -> u32
    ensures { result ≡ fold (fold hash_step) hash fours.now }
{
    let mut hash = hash;
    for four in fours {
        hash = hash_with_four(hash, four);
    }
    hash
}

/// The same, byte by byte.
#[inline(always)]
fn hash_one_by_one(hash: u32, bytes: &[u8]) -> u32
    ensures { result ≡ fold hash_step hash bytes.now }
{
    let mut hash = hash;
    for byte in bytes {
        hash = hash_with(hash, *byte);
    }
    hash
}

/// The hash of some bytes and four more: each counts 33 times as much as the one after it.
#[inline(always)]
pub fn hash_with_four(hash: u32, four: &[u8; 4]) -> u32
    ensures { result ≡ fold hash_step hash four.now }
{
    hash.wrapping_mul(FOUR_STEPS)
        .wrapping_add(signed(four[0]).wrapping_mul(THREE_STEPS))
        .wrapping_add(signed(four[1]).wrapping_mul(TWO_STEPS))
        .wrapping_add(signed(four[2]).wrapping_mul(STEP))
        .wrapping_add(signed(four[3]))
}

/// The hash of some bytes and one more, of the hash of those. So the hashes of a name's directories come on the way.
#[inline(always)]
pub fn hash_with(hash: u32, byte: u8) -> u32
    ensures { result ≡ hash_step hash byte }
{
    hash.wrapping_mul(STEP).wrapping_add(signed(byte))
}

/// A byte as a signed number, modulo 2^32.
#[inline(always)]
pub fn signed(byte: u8) -> u32
    ensures { (hash : ℕ) → hash_step hash byte ≡ (hash * 33 + result) % 2 ^ 32 }
{
    i32::from(byte.cast_signed()).cast_unsigned()
}
