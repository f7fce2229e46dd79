//! What is said of an argument of `--schema`, which is a relocatable schema and one more path of its own.
ghost use Rattle.std.specs.Prelude.{◌≡◌};
ghost use Rattle.dconf_options.specs.Placings.{placing_number, placing_of};

/// What is said of it.
#[derive(Clone, Copy)]
pub enum Placing {
    /// The schema has the path, too.
    Taken,
    /// There is no `:` between a schema and a path.
    NoPath,
    /// The path is not a directory's.
    NoDirectory,
    /// There is no such schema.
    NoSchema,
    /// It has a path of its own.
    Fixed,
}

/// What it is, by whether it has a `:`, the path behind that is a directory's, there is the schema before it, and that has a path.
pub fn placing_of(has_path: bool, is_directory: bool, has_schema: bool, is_fixed: bool) -> Placing
    ensures { result ≡ placing_of has_path is_directory has_schema is_fixed }
{
    if !has_path {
        return Placing::NoPath;
    }
    if !is_directory {
        return Placing::NoDirectory;
    }
    if !has_schema {
        return Placing::NoSchema;
    }
    if is_fixed {
        return Placing::Fixed;
    }
    Placing::Taken
}

/// The same as a number: 0 it is taken, 1 there is no path, 2 no directory's, 3 no such schema, 4 it has a path of its own.
pub fn placing_number(placing: Placing) -> u32
    ensures { result ≡ placing_number placing }
{
    match placing {
        Placing::Taken => 0,
        Placing::NoPath => 1,
        Placing::NoDirectory => 2,
        Placing::NoSchema => 3,
        Placing::Fixed => 4,
    }
}
