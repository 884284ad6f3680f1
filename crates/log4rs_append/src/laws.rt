//! Laws of rolled files behind appenders.

ghost use Rattle.log4rs_append.specs.RolledFile.{RolledFile, GoesOn, KeepsItsEnd};

/// The archives and the file of a sink hold a suffix of what they held at the opening and all that
/// was written since.
pub fn rolled_files_keep_their_end()
    ensures { (file : RolledFile) → ∥ KeepsItsEnd file ∥₁ }
{}

/// To go on is reflexive and transitive for rolled files.
pub fn rolled_files_go_on()
    ensures nothing { (file : RolledFile) → GoesOn file file }
    ensures joined { (before between after : RolledFile) → GoesOn before between
        → GoesOn between after → GoesOn before after }
{}
