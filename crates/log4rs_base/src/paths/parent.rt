//! Parents of paths.
ghost use Rattle.std.specs.Prelude.{◌≡◌};
ghost use Rattle.std.specs.Option.{option_copied};
ghost use Rattle.log4rs_base.specs.Parent.{parent_of, unless_empty};

/// Returns the text before the last `/` of a path, or `None` if the path has no `/` or that text is
/// empty.
pub fn parent_of(path: &str) -> Option<&str>
    ensures { option_copied result ≡ parent_of path.now }
{
    match path.rsplit_once('/') {
        Some((parent, _)) => unless_empty(parent),
        None => None,
    }
}

/// Returns the text, if it is not empty.
fn unless_empty(text: &str) -> Option<&str>
    ensures { option_copied result ≡ unless_empty text.now }
{
    if text.is_empty() { None } else { Some(text) }
}
