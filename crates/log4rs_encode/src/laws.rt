//! Laws of styled text.

ghost use Rattle.std.specs.Prelude.{◌≡◌, List};
ghost use Rattle.log4rs_encode.specs.Runs.{Run, join, plain_bytes};

/// Joining neighboring texts changes no byte.
pub fn joined_bytes()
    ensures { (runs : List Run) → plain_bytes (join runs) ≡ plain_bytes runs }
{}
