//! Whether a file is the one that was read, by what the host says of it without reading it.
ghost use Rattle.std.specs.Prelude.{◌≡◌, ◌≤◌, ◌↔◌, ◌+◌, ◌*◌, ◌^◌, IfNone, IfSome, IsTrue};
ghost use Rattle.dconf_files.specs.Stamps.{grain_of, is_same_time, is_written_alike, is_settled, missing, sameness_number, sameness_of, settled_at};

/// Two seconds, and ten milliseconds: longer than the tick of a clock by which a host notes times.
const COARSE: u64 = 2_000_000_000;

const FINE: u64 = 10_000_000;

const SECOND: u64 = 1_000_000_000;

/// A time, as the host notes it.
#[repr(C)]
#[derive(Clone, Copy)]
pub struct FileTime {
    /// Since 1970.
    pub seconds: u64,
    pub nanoseconds: u64,
}

/// What the host says of a name without reading its file.
#[repr(C)]
#[derive(Clone, Copy)]
pub struct FileStamp {
    pub device: u64,
    pub inode: u64,
    pub size: u64,
    /// When it was written. Whoever writes it can set that.
    pub written: FileTime,
    /// When anything of it changed. The host alone sets that.
    pub touched: FileTime,
    pub is_there: bool,
}

/// Whether a file is the one that was read.
#[derive(Clone, Copy)]
pub enum Sameness {
    /// It is, and holds the same.
    Same,
    /// It is another one, or it changed.
    Other,
    /// It looks like that, but had changed so shortly before it was read that a change since then would have the same time: it is
    /// to be read again.
    Unsure,
}

/// Whether a file is the one that was read. `opened` is when the reading began, or earlier: nanoseconds since 1970, by the clock by
/// which the host notes times. `is_held`: the file has been open or mapped since then, so that no other one gets its number; whose it is
/// may change then.
pub fn same_file(old: &FileStamp, now: &FileStamp, opened: u64, is_held: bool) -> Sameness
    ensures { result ≡ sameness_of old.now now.now opened is_held }
{
    if !old.is_there || !now.is_there {
        return missing(old.is_there, now.is_there);
    }
    if !is_written_alike(old, now) {
        return Sameness::Other;
    }
    if is_held {
        return Sameness::Same;
    }
    if !is_same_time(old.touched, now.touched) {
        return Sameness::Other;
    }
    if is_settled(old.touched, opened) {
        Sameness::Same
    } else {
        Sameness::Unsure
    }
}

/// The same as a number: 0 same, 1 another, 2 unsure.
pub fn sameness_number(old: &FileStamp, now: &FileStamp, opened: u64, is_held: bool) -> u32
    ensures { result ≡ sameness_number (sameness_of old.now now.now opened is_held) }
{
    match same_file(old, now, opened, is_held) {
        Sameness::Same => 0,
        Sameness::Other => 1,
        Sameness::Unsure => 2,
    }
}

/// Of files of which one is missing.
fn missing(old: bool, now: bool) -> Sameness
    ensures { result ≡ missing old now }
{
    if old || now {
        Sameness::Other
    } else {
        Sameness::Same
    }
}

/// Whether it is the same file, as far as its number, its size and the time of its writing tell.
fn is_written_alike(old: &FileStamp, now: &FileStamp) -> bool
    ensures { result ≡ is_written_alike old.now now.now }
{
    old.inode == now.inode
        && is_same_time(old.written, now.written)
        && old.size == now.size
        && old.device == now.device
}

fn is_same_time(old: FileTime, now: FileTime) -> bool
    ensures { result ≡ is_same_time old now }
{
    old.nanoseconds == now.nanoseconds && old.seconds == now.seconds
}

/// Whether a change since then would have a later time.
fn is_settled(touched: FileTime, opened: u64) -> bool
    ensures { result ≡ is_settled touched opened }
{
    match settled_at(touched) {
        Some(at) => at <= opened,
        None => false,
    }
}

/// From when on a change has a later time than this one, if 64 bits hold that.
fn settled_at(touched: FileTime) -> Option<u64>
    ensures some { IfSome result (λ at. at ≡ settled_at touched) }
    ensures none { IfNone result (2 ^ 64 ≤ settled_at touched) }
{
    let since = touched.seconds.checked_mul(SECOND)?;
    since
        .checked_add(touched.nanoseconds)?
        .checked_add(grain_of(touched))
}

/// A time of whole seconds is mostly one of a host that keeps no more of it.
fn grain_of(touched: FileTime) -> u64
    ensures { result ≡ grain_of touched }
{
    if touched.nanoseconds == 0 {
        COARSE
    } else {
        FINE
    }
}
