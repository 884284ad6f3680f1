//! Writing of the members of an object.

ghost use Rattle.std.specs.Prelude.{OnOk, option_map, string_bytes};
ghost use Rattle.log4rs_base.specs.Line.{if_some, or_null, text_members};
ghost use Rattle.log4rs_base.specs.Written.{Puts, PutsAll};
ghost use Rattle.serde_json.specs.Data.{string, number, unsigned, object, member};

use json::Writer;
use std::alloc::AllocError;
use std::collections::BTreeMap;

/// Writes a member that is a text.
pub(crate) fn put_text(out: &mut Writer, name: &str, text: &str) -> Result<(), AllocError>
    ensures { OnOk result (Puts (member name.now (string text.now)) out.old out.new) }
{
    out.key(name)?;
    out.string(text)
}

/// Writes a member that is a text, if there is one.
pub(crate) fn put_text_if(
    out: &mut Writer,
    name: &str,
    text: &Option<String>,
) -> Result<(), AllocError>
    ensures { OnOk result (Puts (if_some name.now string (option_map string_bytes text.now)) out.old
        out.new) }
{
    match text {
        Some(text) => put_text(out, name, text),
        None => Ok(()),
    }
}

/// Writes a member that is a text or null.
pub(crate) fn put_text_or_null(
    out: &mut Writer,
    name: &str,
    text: &Option<String>,
) -> Result<(), AllocError>
    ensures { OnOk result (Puts (member name.now (or_null (option_map string_bytes text.now)))
        out.old out.new) }
{
    out.key(name)?;
    match text {
        Some(text) => out.string(text),
        None => out.null(),
    }
}

/// Writes a member that is a number.
pub(crate) fn put_number(out: &mut Writer, name: &str, n: u64) -> Result<(), AllocError>
    ensures { OnOk result (Puts (member name.now (number (unsigned n))) out.old out.new) }
{
    out.key(name)?;
    out.u64(n)
}

/// Writes a member that is a number, if there is one.
pub(crate) fn put_number_if(out: &mut Writer, name: &str, n: Option<u32>) -> Result<(), AllocError>
    ensures { OnOk result (Puts (if_some name.now (λ k. number (unsigned k)) n) out.old out.new) }
{
    match n {
        Some(n) => put_number(out, name, u64::from(n)),
        None => Ok(()),
    }
}

/// Writes a member that is an object of texts.
pub(crate) fn put_texts(
    out: &mut Writer,
    name: &str,
    texts: &BTreeMap<String, String>,
) -> Result<(), AllocError>
    ensures { OnOk result (Puts (member name.now (object (text_members texts.now.entries))) out.old
        out.new) }
{
    out.key(name)?;
    out.begin_object()?;
    if !texts.is_empty() {
        put_entries(out, texts)?;
    }
    out.end_object()
}

/// Writes a member for each text. Apart from `put_texts`, since most often there is none.
#[inline(never)]
fn put_entries(out: &mut Writer, texts: &BTreeMap<String, String>) -> Result<(), AllocError>
    ensures { OnOk result (PutsAll (text_members texts.now.entries) out.old out.new) }
{
    for (key, text) in texts.iter() {
        put_text(out, key, text)?;
    }
    Ok(())
}
