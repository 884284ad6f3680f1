//! The fields of spans and the pairs of records, as a mapped diagnostic context.

ghost use Rattle.std.specs.Prelude.{◌≡◌, [], ◌∷◌, IfOk, IfSome, OnOk};
ghost use Rattle.log.specs.Kv.{value_text};
ghost use Rattle.log4rs.specs.Fields.{all_fields, HoldsLast, Puts};

use log::kv::{self, Source, Value, VisitSource};
use log::span::{Spans, VisitSpans};
use log4rs_base::OutOfMemory;
use std::alloc::Global;
use std::collections::BTreeMap;
use std::fmt::Display;

/// Returns the diagnostic context of a record: the fields of its spans, the outermost first, then
/// its own pairs. The last of several with one key stays. Allocates nothing if there are none.
/// Fails if an allocation fails, a source gives up, or the `fmt` of a value fails.
pub fn mdc_of<K: Source, S: Spans>(
    alloc: Global,
    spans: &S,
    pairs: &K,
) -> Result<BTreeMap<String, String>, OutOfMemory>
    ensures { IfOk result (λ mdc. IfSome (all_fields (S.scopes spans.now) (K.pairs pairs.now))
        (λ fields. HoldsLast fields mdc)) }
{
    let mut fields = Fields {
        alloc,
        mdc: BTreeMap::new(alloc),
    };
    if let Err(_) = spans.visit(&mut fields) {
        return Err(OutOfMemory);
    }
    if let Err(_) = pairs.visit(&mut fields) {
        return Err(OutOfMemory);
    }
    let Fields { alloc: _, mdc } = fields;
    Ok(mdc)
}

/// Collects pairs and the fields of spans.
#[derive(Drop)]
struct Fields {
    alloc: Global,
    mdc: BTreeMap<String, String>,
}

impl VisitSource for Fields {
    ghost visit_pair_gives = { λ old pair new. Puts old.mdc (pair ∷ []) new.mdc };

    fn visit_pair<D: Display>(&mut self, key: &str, value: Value<'_, D>) -> Result<(), kv::Error> {
        match put(self.alloc, &mut self.mdc, key, value) {
            Ok(()) => Ok(()),
            Err(_) => Err(kv::Error::msg("out of memory")),
        }
    }
}

impl VisitSpans for Fields {
    ghost visit_span_gives = { λ old scope new. Puts old.mdc scope.1 new.mdc };

    fn visit_span<K: Source>(&mut self, _name: &str, fields: &K) -> Result<(), kv::Error> {
        fields.visit(self)
    }
}

/// Inserts the text of a value at a key.
fn put<D: Display>(
    alloc: Global,
    mdc: &mut BTreeMap<String, String>,
    key: &str,
    value: Value<'_, D>,
) -> Result<(), OutOfMemory>
    ensures { OnOk result (IfSome (value_text D.output value.entry)
        (λ text. Puts mdc.old ((key.now, text) ∷ []) mdc.new)) }
{
    let key = String::from_str(alloc, key)?;
    let text = String::format(alloc, value)?;
    mdc.insert(key, text)?;
    Ok(())
}
