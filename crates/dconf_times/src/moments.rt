//! Which moment is which time of day.
ghost use Rattle.std.specs.Prelude.{◌≡◌};
ghost use Rattle.dconf_times.specs.Moments.{by_clock, even, time_of_file, time_of_moment};

/// The time of what was asked for in a moment, by a clock that nobody sets. It is `now` by the clock of the
/// day, and `boot` by that one; the program noted `noted` last, or 0.
pub fn time_of_moment(now: u64, boot: u64, moment: u64, noted: u64) -> u64
    ensures { result ≡ time_of_moment now boot moment noted }
{
    let time = by_clock(now, boot, moment);
    if time < noted && noted <= now {
        noted
    } else {
        time
    }
}

/// The time that stands for when a file was changed that nobody noted: when it was written, or got its name, by the later of both.
pub fn time_of_file(written: u64, touched: u64) -> u64
    ensures { result ≡ time_of_file written touched }
{
    let time = written.max(touched);
    if time % 2 == 1 { time } else { time + 1 }
}

fn by_clock(now: u64, boot: u64, moment: u64) -> u64
    ensures { result ≡ by_clock now boot moment }
{
    even(now.saturating_sub(boot.saturating_sub(moment)))
}

fn even(time: u64) -> u64
    ensures { result ≡ even time }
{
    time - time % 2
}
