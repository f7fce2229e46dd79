//! A step as plain numbers, for a caller that is not Rust.
ghost use Rattle.std.specs.Prelude.{◌≡◌};

/// What comes next. Which number is which step, each machine says of its own.
#[repr(C)]
#[derive(Clone, Copy)]
pub struct NextStep {
    pub kind: u32,
    /// The file, the edit or the fault that the step names; else 0.
    pub number: usize,
}

impl NextStep {
    /// A step that names nothing.
    pub fn plain(kind: u32) -> NextStep
        ensures kind { result.kind ≡ kind }
        ensures number { result.number ≡ 0 }
    {
        NextStep { kind, number: 0 }
    }

    /// A step that names this one.
    pub fn of(kind: u32, number: usize) -> NextStep
        ensures kind { result.kind ≡ kind }
        ensures number { result.number ≡ number }
    {
        NextStep { kind, number }
    }
}
