//! Numbers that stand for names and values: FNV-1a of 64 bits.
ghost use Rattle.std.specs.Prelude.{◌≡◌, ◌≢◌};
ghost use Rattle.dconf_left.specs.Numbers.{name_number, number_of, value_number, with_byte};

/// The number of no bytes.
const NOTHING: u64 = 0xcbf2_9ce4_8422_2325;

/// What each byte multiplies by.
const PRIME: u64 = 0x100_0000_01b3;

/// The number of some bytes and of those after them, of the number of the first. It looks at each byte once.
#[inline(always)]
pub fn number_of_bytes(number: u64, bytes: &[u8]) -> u64
    ensures { result ≡ number_of number bytes.now }
{
    let mut number = number;
    for byte in bytes {
        number = with_byte(number, *byte);
    }
    number
}

/// The same, with one byte more.
#[inline(always)]
fn with_byte(number: u64, byte: u8) -> u64
    ensures { result ≡ with_byte number byte }
{
    (number ^ u64::from(byte)).wrapping_mul(PRIME)
}

/// The number of a file's name.
#[inline(always)]
pub fn name_number(name: &[u8]) -> u64
    ensures { result ≡ name_number name.now }
{
    number_of_bytes(NOTHING, name)
}

/// The number of a value's bytes at the type that the text spells: never 0, which stands for no value.
#[tactic(auto, using(std::proofs::lemmas::Nat::le_or_r))]
pub fn value_number(type_text: &[u8], value: &[u8]) -> u64
    ensures is { result ≡ value_number type_text.now value.now }
    ensures some { result ≢ 0 }
{
    number_of_bytes(number_of_bytes(NOTHING, type_text), value) | 1
}
