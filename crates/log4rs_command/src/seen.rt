//! The results of a run's lines.

ghost use Rattle.std.specs.Prelude.{◌≡◌};
ghost use Rattle.log4rs_command.specs.Seen.{both_seen, is_all_well};

/// The result of some lines of input.
#[derive(Clone, Copy)]
pub struct Seen {
    /// Whether each line became a record.
    pub all_read: bool,
    /// Whether no append failed.
    pub all_logged: bool,
}

impl Seen {
    /// The result for empty input.
    pub const NOTHING: Seen = Seen {
        all_read: true,
        all_logged: true,
    };

    /// The result for a malformed line.
    pub const MALFORMED: Seen = Seen {
        all_read: false,
        all_logged: true,
    };

    /// Returns the result of these lines and later ones.
    pub fn and(self, further: Seen) -> Seen
        ensures { result ≡ both_seen self further }
    {
        Seen {
            all_read: self.all_read && further.all_read,
            all_logged: self.all_logged && further.all_logged,
        }
    }

    /// Returns whether all lines were well formed and no append failed.
    pub fn all_well(self) -> bool
        ensures { result ≡ is_all_well self }
    {
        self.all_read && self.all_logged
    }
}
