//! A line for each lock that one of two ways to see layers has alone.
ghost use Rattle.std.specs.Prelude.{◌≡◌, IfOk, codes, map, string_bytes};
ghost use Rattle.std.specs.Cmp.Lexicographic.{slice_cmp};
ghost use Rattle.std.specs.Ordering.{nat_cmp};
ghost use Rattle.dconf_model.specs.Layers.{locks_below};
ghost use Rattle.dconf_model.specs.Order.{IsRising};
ghost use Rattle.dconf_layers.specs.LayerSettings.{seen_in};
ghost use Rattle.dconf_compared.specs.Compared.{is_none_of, lock_line, lock_lines};

use dconf_engine::Engine;
use dconf_layers::LentLayers;
use dconf_path::DirPath;
use std::alloc::{AllocError, Global};
use std::cmp::Ordering;

/// A line for each lock of the layers, from the second on, that the others don't have, after `start`.
pub(crate) fn lock_lines(
    alloc: Global,
    start: &str,
    layers: LentLayers<'_, '_>,
    others: LentLayers<'_, '_>,
) -> Result<String, AllocError>
    ensures { IfOk result (λ text. string_bytes text ≡ lock_lines start.now (locks_below (seen_in layers.entry) (codes "/")) (locks_below (seen_in others.entry) (codes "/"))) }
{
    let locks = locks_of(alloc, layers)?;
    let other_locks = locks_of(alloc, others)?;
    lines_of(alloc, start, &locks, &other_locks)
}

/// The locks of the layers from the second on, in the order of their bytes.
pub fn locks_of(alloc: Global, layers: LentLayers<'_, '_>) -> Result<Vec<String>, AllocError>
    ensures { IfOk result (λ locks. map string_bytes locks.items ≡ locks_below (seen_in layers.entry) (codes "/")) }
{
    let engine = Engine::of_layers(alloc, layers.writable, layers.layers)?;
    engine.locks(alloc, DirPath::parse("/").unwrap())
}

/// A line for each lock that the others, in the order of their bytes, don't have.
fn lines_of(
    alloc: Global,
    start: &str,
    locks: &[String],
    others: &[String],
) -> Result<String, AllocError>
    requires { IsRising (map string_bytes others.now) }
    ensures { IfOk result (λ text. string_bytes text ≡ lock_lines start.now (map string_bytes locks.now) (map string_bytes others.now)) }
{
    let mut text = String::new(alloc);
    for lock in locks {
        let line = line_of(alloc, start, lock.as_str(), others)?;
        text.push_str(line.as_str())?;
    }
    Ok(text)
}

fn line_of(alloc: Global, start: &str, lock: &str, others: &[String]) -> Result<String, AllocError>
    requires { IsRising (map string_bytes others.now) }
    ensures { IfOk result (λ line. string_bytes line ≡ lock_line start.now (map string_bytes others.now) lock.now) }
{
    if is_none_of(others, lock) {
        return format!(in alloc; "{start}{lock}\n");
    }
    Ok(String::new(alloc))
}

/// Whether a path is none of these, which are in the order of their bytes: it is searched for by halving.
pub fn is_none_of(paths: &[String], path: &str) -> bool
    requires { IsRising (map string_bytes paths.now) }
    ensures { result ≡ is_none_of (map string_bytes paths.now) path.now }
{
    paths
        .binary_search_by(|other| order_of(other, path.as_bytes()))
        .is_err()
}

fn order_of(other: &String, path: &[u8]) -> Ordering
    ensures { result ≡ slice_cmp nat_cmp (string_bytes other.now) path.now }
{
    other.as_bytes().cmp(path)
}
