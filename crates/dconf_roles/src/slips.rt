//! Whether a name is a slip of the pen away from another one.
ghost use Rattle.std.specs.Prelude.{◌≡◌, drop, map, nat_eq, take};
ghost use Rattle.std.specs.List.{common_prefix_len, list_any};
ghost use Rattle.dconf_roles.specs.Slips.{begins_with_a_slip, is_slip, is_swapped};

/// A name, lent.
#[repr(C)]
#[derive(Clone, Copy)]
pub struct Name<'a> {
    pub text: &'a [u8],
}

/// Whether it is a slip away from one of these: a letter more, less or otherwise, or two that have changed places.
pub fn has_slip(name: &[u8], others: &[Name<'_>]) -> bool
    ensures { result ≡ list_any (λ other. is_slip name.now other.text.now) others.now }
{
    for other in others {
        if is_slip(name, other.text) {
            return true;
        }
    }
    false
}

fn is_slip(one: &[u8], other: &[u8]) -> bool
    ensures { result ≡ is_slip one.now other.now }
{
    let shared = shared_len(one, other);
    begins_with_a_slip(behind(one, shared), behind(other, shared))
}

/// How many letters both begin with.
fn shared_len(one: &[u8], other: &[u8]) -> usize
    ensures { result ≡ common_prefix_len nat_eq one.now other.now }
{
    let len = one.len().min(other.len());
    for at in 0..len {
        if one[at] != other[at] {
            return at;
        }
    }
    len
}

fn begins_with_a_slip(one: &[u8], other: &[u8]) -> bool
    ensures { result ≡ begins_with_a_slip one.now other.now }
{
    let (next, other_next) = (behind(one, 1), behind(other, 1));
    next == other_next || (one == other_next || (next == other || is_swapped(one, other)))
}

fn is_swapped(one: &[u8], other: &[u8]) -> bool
    ensures { result ≡ is_swapped one.now other.now }
{
    first(one) == first(behind(other, 1))
        && (first(behind(one, 1)) == first(other) && behind(one, 2) == behind(other, 2))
}

fn first(text: &[u8]) -> &[u8]
    ensures { result.now ≡ take 1 text.now }
{
    text.split_at(text.len().min(1)).0
}

fn behind(text: &[u8], len: usize) -> &[u8]
    ensures { result.now ≡ drop len text.now }
{
    text.split_at(text.len().min(len)).1
}
