//! The printed results of a file.

ghost use Rattle.std.specs.Prelude.{◌≡◌, IfOk};
ghost use Rattle.std.specs.List.{list_all};
ghost use Rattle.vectors.specs.Verdicts.{is_agreement};

use crate::verdict::{Verdict, agreements, all_agree, differences};
use std::io;

/// The maximum number of differing cases that are printed.
const SHOWN: usize = 5;

/// Prints the first lines whose cases differ, and all lines that cannot be read.
fn print_faults(rt: &impl Print, name: &str, verdicts: &[Verdict]) -> io::Result<()> {
    let mut shown = 0;
    for (number, verdict) in (1..=u64::MAX).zip(verdicts) {
        match verdict {
            Verdict::Agrees => {}
            Verdict::Differs(difference) => {
                if shown < SHOWN {
                    shown += 1;
                    let expected = difference.expected.as_str();
                    let came = difference.came.as_str();
                    println!(rt; "{name}: line {number}: expected {expected}, came {came}")?;
                }
            }
            Verdict::Unreadable => println!(rt; "{name}: line {number} cannot be read")?,
        }
    }
    Ok(())
}

/// Prints how many cases agree and differ, and the faulty lines. Returns whether all cases agree.
pub fn report(rt: &impl Print, name: &str, verdicts: &[Verdict]) -> io::Result<bool>
    ensures { IfOk result (λ well. well ≡ list_all is_agreement verdicts.now) }
{
    let agree = agreements(verdicts);
    let differ = differences(verdicts);
    println!(rt; "{name}: {agree} agree, {differ} differ")?;
    print_faults(rt, name, verdicts)?;
    Ok(all_agree(verdicts))
}
