//! How new what is seen is, where nobody watches the files. All moments are of one clock, in microseconds.
ghost use Rattle.std.specs.Prelude.{◌≡◌};
ghost use Rattle.dconf_waiting.specs.Fresh.{is_due, may_look, next_look, numbered, span};

/// How long what was seen is new enough for who reads, how long a look that failed isn't made again for that, and how long who tells of a
/// change waits for the newest.
const FRESH: u64 = 10_000;

const AFTER_A_FAULT: u64 = 1_000_000;

const CATCH_UP: u64 = 200_000;

/// Who looks at the files, or did.
#[derive(Clone, Copy)]
pub enum Looker {
    /// Somebody reads.
    Reads,
    /// Somebody read, and the look failed.
    Failed,
    /// Somebody is about to tell of a change.
    Tells,
}

/// When the next look is due, if this one is made; of who tells, how long it waits for it; 0 if none is made. `due`: when one is, unless somebody
/// watches the files. The store was opened first, or could not be, and its owner is at work. In numbers: 0 reads, 1 has failed, and else tells.
pub fn next_look(
    looker: u32,
    due: u64,
    now: u64,
    has_opened: bool,
    is_at_work: bool,
    is_watched: bool,
) -> u64
    ensures { result ≡ next_look (numbered looker) is_watched due now (may_look has_opened is_at_work) }
{
    let looker = numbered(looker);
    if !may_look(has_opened, is_at_work) || !is_due(looker, is_watched, due, now) {
        return 0;
    }
    now.saturating_add(span(looker))
}

fn numbered(number: u32) -> Looker
    ensures { result ≡ numbered number }
{
    match number {
        0 => Looker::Reads,
        1 => Looker::Failed,
        _ => Looker::Tells,
    }
}

fn may_look(has_opened: bool, is_at_work: bool) -> bool
    ensures { result ≡ may_look has_opened is_at_work }
{
    has_opened && is_at_work
}

fn is_due(looker: Looker, is_watched: bool, due: u64, now: u64) -> bool
    ensures { result ≡ is_due looker is_watched due now }
{
    match looker {
        Looker::Reads => !is_watched && due <= now,
        Looker::Failed | Looker::Tells => true,
    }
}

fn span(looker: Looker) -> u64
    ensures { result ≡ span looker }
{
    match looker {
        Looker::Reads => FRESH,
        Looker::Failed => AFTER_A_FAULT,
        Looker::Tells => CATCH_UP,
    }
}
