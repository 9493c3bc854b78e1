//! Which numbers a key takes.

ghost use Rattle.std.specs.Prelude.{◌≡◌, ◌<◌, ◌^◌};
ghost use Rattle.toml_walk.specs.Bounds.{within, bounds_of_form, has_form, admits};

/// The greatest number that TOML has, 2^63 - 1 (TOML 1.0).
pub const GREATEST: u64 = 9223372036854775807;

/// The form that a number has to have, besides its bounds.
#[derive(Clone, Copy, PartialEq, Eq)]
pub enum Form {
    /// Nothing.
    Any,
    /// A multiple of 4,096.
    Pages,
    /// A multiple of 2^20.
    Mebibytes,
    /// One less than a multiple of 2^20.
    LastOfMebibyte,
    /// 1, 2, 4 or 8.
    UnitMode,
}

impl Form {
    fn fits(self, n: u64) -> bool
        requires { n < 2 ^ 63 }
        ensures { result ≡ has_form self n }
    {
        match self {
            Form::Any => true,
            Form::Pages => n % 4096 == 0,
            Form::Mebibytes => n % 1048576 == 0,
            Form::LastOfMebibyte => (n + 1) % 1048576 == 0,
            Form::UnitMode => n == 1 || n == 2 || n == 4 || n == 8,
        }
    }
}

/// The numbers from `least` to `most` that have a form.
#[derive(Clone, Copy, PartialEq, Eq)]
pub struct Bounds {
    pub least: u64,
    pub most: u64,
    pub form: Form,
}

impl Bounds {
    /// The numbers from `least` to `most`.
    pub fn within(least: u64, most: u64) -> Bounds
        ensures { result ≡ within least most }
    {
        Bounds::formed(least, most, Form::Any)
    }

    /// The numbers from `least` to `most` that have the form.
    pub fn formed(least: u64, most: u64, form: Form) -> Bounds
        ensures { result ≡ bounds_of_form least most form }
    {
        Bounds { least, most, form }
    }

    /// Whether the number is one of them.
    pub fn admit(&self, n: u64) -> bool
        requires { n < 2 ^ 63 }
        ensures { result ≡ admits self.now n }
    {
        self.least <= n && n <= self.most && self.form.fits(n)
    }
}
