//! The verdict on a case.

ghost use Rattle.std.specs.Prelude.{◌≡◌, IfOk, length, filter, not};
ghost use Rattle.std.specs.List.{list_all};
ghost use Rattle.vectors.specs.Verdicts.{is_agreement, is_difference};

use std::alloc::{AllocError, Global};
use std::fmt::Debug;

/// The verdict on a case.
#[derive(Drop)]
pub enum Verdict {
    /// The result is the expected one.
    Agrees,
    /// The result differs.
    Differs(Difference),
    /// The line is not a case of its kind.
    Unreadable,
}

/// The expected result and the actual one, as texts.
#[derive(Drop)]
pub struct Difference {
    pub expected: String,
    pub came: String,
}

impl Verdict {
    /// Returns whether the result is the expected one.
    pub fn agrees(&self) -> bool
        ensures { result ≡ is_agreement self.now }
    {
        matches!(self, Verdict::Agrees)
    }

    /// Returns whether the result differs.
    pub fn differs(&self) -> bool
        ensures { result ≡ is_difference self.now }
    {
        matches!(self, Verdict::Differs(_))
    }
}

/// Compares the actual result with the expected one.
pub fn compare<T: PartialEq + Debug>(
    alloc: Global,
    expected: &T,
    came: &T,
) -> Result<Verdict, AllocError>
    ensures agrees { IfOk result
        (λ verdict. is_agreement verdict ≡ T.eq came.now expected.now) }
    ensures differs { IfOk result
        (λ verdict. is_difference verdict ≡ not (T.eq came.now expected.now)) }
{
    if came == expected {
        return Ok(Verdict::Agrees);
    }
    Ok(Verdict::Differs(Difference {
        expected: format!(in alloc; "{expected:?}")?,
        came: format!(in alloc; "{came:?}")?,
    }))
}

/// Returns the number of cases that agree.
pub fn agreements(verdicts: &[Verdict]) -> usize
    ensures { result ≡ length (filter is_agreement verdicts.now) }
{
    verdicts.iter().filter(|verdict| verdict.agrees()).count()
}

/// Returns the number of cases that differ.
pub fn differences(verdicts: &[Verdict]) -> usize
    ensures { result ≡ length (filter is_difference verdicts.now) }
{
    verdicts.iter().filter(|verdict| verdict.differs()).count()
}

/// Returns whether all cases agree.
pub fn all_agree(verdicts: &[Verdict]) -> bool
    ensures { result ≡ list_all is_agreement verdicts.now }
{
    verdicts.iter().all(|verdict| verdict.agrees())
}
