//! What a serializer is asked for.

ghost use Rattle.std.specs.Prelude.{◌≡◌, Bool};

/// What output is to contain.
///
/// Its two flags are those that it was made with, and whether it records fix paths is fixed by its
/// type.
pub trait Config {
    // Whether the output has TS fields.
    ghost ts: { Self → Bool };

    // Whether a node has the field `range`.
    ghost with_ranges: { Self → Bool };

    // Whether fix paths are recorded.
    ghost records: { Bool };

    /// A config with these two flags.
    fn new(include_ts_fields: bool, ranges: bool) -> Self
        ensures ts { ts result ≡ include_ts_fields }
        ensures ranges { with_ranges result ≡ ranges };

    /// Whether the output has TS fields.
    fn include_ts_fields(&self) -> bool
        ensures { result ≡ ts self.now };

    /// Whether the paths to literals that JSON can't hold are recorded.
    fn fixes(&self) -> bool
        ensures { result ≡ records };

    /// Whether a node has the field `range`.
    fn ranges(&self) -> bool
        ensures { result ≡ with_ranges self.now };
}

/// A config that records no fix paths.
#[derive(Drop)]
pub struct ConfigNoFixes {
    include_ts_fields: bool,
    ranges: bool,
}

impl Config for ConfigNoFixes {
    ghost use Rattle.std.specs.Prelude.{false};

    ghost ts = { λ c. c.include_ts_fields };

    ghost with_ranges = { λ c. c.ranges };

    ghost records = { false };

    fn new(include_ts_fields: bool, ranges: bool) -> Self {
        ConfigNoFixes {
            include_ts_fields,
            ranges,
        }
    }

    fn include_ts_fields(&self) -> bool {
        self.include_ts_fields
    }

    fn fixes(&self) -> bool {
        false
    }

    fn ranges(&self) -> bool {
        self.ranges
    }
}

/// A config that records fix paths.
#[derive(Drop)]
pub struct ConfigFixes {
    include_ts_fields: bool,
    ranges: bool,
}

impl Config for ConfigFixes {
    ghost use Rattle.std.specs.Prelude.{true};

    ghost ts = { λ c. c.include_ts_fields };

    ghost with_ranges = { λ c. c.ranges };

    ghost records = { true };

    fn new(include_ts_fields: bool, ranges: bool) -> Self {
        ConfigFixes {
            include_ts_fields,
            ranges,
        }
    }

    fn include_ts_fields(&self) -> bool {
        self.include_ts_fields
    }

    fn fixes(&self) -> bool {
        true
    }

    fn ranges(&self) -> bool {
        self.ranges
    }
}
