//! Components of the names of loggers and targets.

ghost use Rattle.std.specs.Prelude.{◌≡◌, IsTrue, length, slice_index, ◌<◌, ◌+◌, ◌==◌, ◌&&◌};
ghost use Rattle.log4rs_config.specs.Name.{colon};

/// Returns whether `::` stands at a place.
pub(crate) fn is_separator(name: &[u8], at: usize) -> bool
    requires { at < length name.now }
    ensures within { IsTrue result → at + 1 < length name.now }
    ensures value { result ≡ ((slice_index name.now at == colon) &&
        (slice_index name.now (at + 1) == colon)) }
{
    name[at] == b':' && at + 1 < name.len() && name[at + 1] == b':'
}
