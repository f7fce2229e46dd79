//! What both of two paths are, or are in.
ghost use Rattle.std.specs.Prelude.{◌≡◌};
ghost use Rattle.dconf_changesets.specs.Above.{is_shared, longest_shared, shared_within};

use dconf_seen::covers;

/// How many bytes the longest path has that covers both, as the first one begins, of at most so many bytes; 0 where there is none. Of two
/// that is the directory in which both are; of one path twice it is the path, and, with fewer bytes than it has, the next directory above.
pub fn shared_within(path: &[u8], most: usize, other: &[u8]) -> usize
    ensures { result ≡ shared_within path.now most other.now }
{
    longest_shared(path, other, path.len().min(most))
}

fn longest_shared(path: &[u8], other: &[u8], top: usize) -> usize
    ensures { result ≡ longest_shared path.now other.now top }
{
    for back in 0..top {
        if is_shared(path, other, top - back) {
            return top - back;
        }
    }
    0
}

fn is_shared(path: &[u8], other: &[u8], n: usize) -> bool
    ensures { result ≡ is_shared path.now other.now n }
{
    let (first, _) = path.split_at(n.min(path.len()));
    covers(first, path) && covers(first, other)
}
