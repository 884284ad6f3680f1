//! Components of the caller's that are made anew for each reading.

ghost use Rattle.std.specs.Prelude.{◌≡◌, IfOk, OnOk, OnErr, ⊤};
ghost use Rattle.log4rs_parts.specs.NamedParts.{parts_in};
ghost use Rattle.log4rs_parts.specs.Refilled.{Fills, IsFilled};
ghost use Rattle.log4rs_parts.specs.Waits.{waits_in};

use crate::handed::{Handed, HandedInOf, NamedParts};
use log4rs_base::OutOfMemory;

/// Makes components `P` of the caller's anew, so that each reading of a configuration can have them.
pub trait Refill<P> {
    /// What another reading begins with: the components before and after.
    ghost Refills: { Self → P → P → Type 0 };

    /// Makes the components for another reading. If an allocation fails, nothing changes.
    fn refill(&self, parts: &mut P) -> Result<(), OutOfMemory>
        ensures ok { OnOk result (Refills self.now parts.old parts.new) }
        ensures err { OnErr result (parts.new ≡ parts.old) };
}

/// Makes no components: each is handed in once.
#[derive(Drop)]
pub struct Once;

impl<P> Refill<P> for Once {
    ghost Refills = { λ _ old new. new ≡ old };

    fn refill(&self, _: &mut P) -> Result<(), OutOfMemory> {
        Ok(())
    }
}

/// Makes a component `P` of the caller's at each call.
pub trait PartMaker<P> {
    /// The property of each component that it makes, if any.
    ghost Makes: { Self → P → Type 0 } = { λ _ _. ⊤ };

    /// Makes a new component.
    fn make(&self) -> Result<P, OutOfMemory>
        ensures { IfOk result (Makes self.now) };
}

impl<A, F, E, T, P> Refill<Handed<A, F, E, T>> for NamedParts<P>
where
    A: Drop,
    F: Drop,
    E: Drop,
    T: Drop,
    P: PartMaker<HandedInOf<A, F, E, T>>,
{
    ghost Refills = { λ makers _ new. IsFilled P.Makes (parts_in makers) new };

    fn refill(&self, parts: &mut Handed<A, F, E, T>) -> Result<(), OutOfMemory> {
        let mut handed = Handed::new(parts.alloc);
        fill(self, &mut handed)?;
        *parts = handed;
        Ok(())
    }
}

/// Makes one component with each maker and hands it in.
fn fill<A: Drop, F: Drop, E: Drop, T: Drop, P: PartMaker<HandedInOf<A, F, E, T>>>(
    makers: &NamedParts<P>,
    handed: &mut Handed<A, F, E, T>,
) -> Result<(), OutOfMemory>
    ensures { OnOk result (Fills P.Makes (parts_in makers.now) (waits_in handed.old)
        (waits_in handed.new)) }
{
    for named in &makers.parts {
        let part = named.part.make()?;
        handed.put(named.appender.as_str(), part)?;
    }
    Ok(())
}
