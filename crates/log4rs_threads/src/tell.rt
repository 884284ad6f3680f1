//! Who is told of the faults of a record.

ghost use Rattle.std.specs.Prelude.{◌≡◌, [], ◌∷◌, ◌++◌, MatchResult, None, Some, map};

use log4rs_base::OutOfMemory;
use log4rs_config::AppendError;

/// Is told of the faults of records, one after another.
pub trait TellFault {
    ghost use Rattle.std.specs.Prelude.{List};
    ghost use Rattle.log4rs_threads.specs.Steps.{Fault};

    /// What it was told, in order.
    ghost told: { Self → List Fault → Type 0 };

    /// Tells of a failed append.
    fn tell_append(&mut self, error: &AppendError)
        ensures { (faults : _) → told self.old faults
            → told self.new (faults ++ Some error.now ∷ []) };

    /// Tells that an allocation failed, and nothing was appended.
    fn tell_memory(&mut self)
        ensures { (faults : _) → told self.old faults → told self.new (faults ++ None ∷ []) };
}

/// Tells of each failed append that was noted, in order; or that an allocation failed.
pub(crate) fn tell_noted<T: TellFault>(
    teller: &mut T,
    noted: Result<(), OutOfMemory>,
    errors: &[Option<AppendError>],
) -> Result<(), OutOfMemory>
    ensures same { result ≡ noted }
    ensures told { (failed : _) → errors.now ≡ map Some failed → (faults : _)
        → T.told teller.old faults → MatchResult noted
        (λ _. T.told teller.new (faults ++ map Some failed))
        (λ _. T.told teller.new (faults ++ None ∷ [])) }
{
    if noted.is_err() {
        teller.tell_memory();
        return noted;
    }
    for error in errors {
        if let Some(error) = error {
            teller.tell_append(error);
        }
    }
    noted
}
