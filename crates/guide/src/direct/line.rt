//! The output of the pattern `{l} {t} - {m}{n}`.

ghost use Rattle.std.specs.Prelude.{◌≡◌};
ghost use Rattle.log4rs_base.specs.declared.record.Context.{Context};
ghost use Rattle.log4rs_base.specs.declared.record.Record.{Record};
ghost use Rattle.log4rs_encode.specs.Spelling.{IsPattern};
ghost use Rattle.log4rs_encode.specs.Runs.{plain_bytes};
ghost use Rattle.guide.specs.Line.{line_pattern, line_pieces, line_runs, line_text};

use log4rs_encode::laws::joined_bytes;
use log4rs_encode::pattern::laws::literal_pieces;

/// The pattern has these pieces.
pub fn line_is_spelled()
    ensures { IsPattern line_pattern line_pieces }
{
    literal_pieces();
}

/// They print a record's level, target and message.
pub fn line_renders()
    ensures { (logged : Record) (context : Context)
        → plain_bytes (line_runs logged context) ≡ line_text logged }
{
    joined_bytes();
}
