//! What is known of several files at once: of all that may be a store's profile.
ghost use Rattle.std.specs.Prelude.{◌≡◌};
ghost use Rattle.dconf_files.specs.Stamps.{sameness_number};
ghost use Rattle.dconf_parts.specs.Several.{among, sameness_from, unless_other};

use dconf_files::Sameness;

/// What is known of all, by what is known of those before and of one more.
pub fn among(before: Sameness, is: Sameness) -> Sameness
    ensures { result ≡ among before is }
{
    match before {
        Sameness::Same => is,
        Sameness::Other => Sameness::Other,
        Sameness::Unsure => unless_other(is),
    }
}

/// The same in numbers: 0 the same, 2 nobody is sure, else another one. Before the first it is 0.
pub fn among_number(before: u32, is: u32) -> u32
    ensures { result ≡ sameness_number (among (sameness_from before) (sameness_from is)) }
{
    match among(sameness_from(before), sameness_from(is)) {
        Sameness::Same => 0,
        Sameness::Other => 1,
        Sameness::Unsure => 2,
    }
}

fn unless_other(is: Sameness) -> Sameness
    ensures { result ≡ unless_other is }
{
    match is {
        Sameness::Same => Sameness::Unsure,
        Sameness::Other => Sameness::Other,
        Sameness::Unsure => Sameness::Unsure,
    }
}

fn sameness_from(number: u32) -> Sameness
    ensures { result ≡ sameness_from number }
{
    match number {
        0 => Sameness::Same,
        2 => Sameness::Unsure,
        _ => Sameness::Other,
    }
}
