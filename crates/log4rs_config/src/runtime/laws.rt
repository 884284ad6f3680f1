//! Laws of configurations.

ghost use Rattle.std.specs.Prelude.{◌≡◌, ℕ, Some, map, slice_get, slice_set};
ghost use Rattle.log4rs_base.specs.declared.record.Record.{Record};
ghost use Rattle.log4rs_base.specs.declared.record.Context.{Context};
ghost use Rattle.log4rs_append.specs.Sink.{Appended};
ghost use Rattle.log4rs_config.specs.declared.runtime.config.ConfigOf.{ConfigOf as Config};
ghost use Rattle.log4rs_config.specs.Appender.{appender_of, filters_of};
ghost use Rattle.log4rs_config.specs.Builder.{appenders_of, config_settings, config_admits, config_sinks};
ghost use Rattle.log4rs_config.specs.Destinations.{Outcome, AppendedAt};
ghost use Rattle.log4rs_config.specs.Loan.{left_with};

use log4rs_append::Append;
use log4rs_base::filter::Filter;

/// A loan changes one appender of a configuration and its sink. Names, filters, root, loggers and
/// all other appenders and sinks stay.
pub fn loan_changes_one_appender<A: Append, F: Filter>()
    ensures settings { (c : Config A F) (at : ℕ) (left : A)
        → config_settings (left_with c at left) ≡ config_settings c }
    ensures filters { (c : Config A F) (at : ℕ) (left : A)
        → map (λ a. filters_of a) (appenders_of (left_with c at left))
        ≡ map (λ a. filters_of a) (appenders_of c) }
    ensures admits { (c : Config A F) (at : ℕ) (left : A) (r : Record)
        → config_admits F.answer (left_with c at left) r ≡ config_admits F.answer c r }
    ensures appenders { (c : Config A F) (at : ℕ) (left : A)
        → map (λ a. appender_of a) (appenders_of (left_with c at left))
        ≡ slice_set (map (λ a. appender_of a) (appenders_of c)) at left }
    ensures sinks { (c : Config A F) (at : ℕ) (left : A)
        → config_sinks A.sink (left_with c at left)
        ≡ slice_set (config_sinks A.sink c) at (A.sink left) }
{}

/// An append to the lent appender is an append at its place.
pub fn loan_appends_at_its_place<A: Append, F: Filter>()
    ensures { (c : Config A F) (at : ℕ) (lent left : A) (r : Record) (x : Context) (o : Outcome)
        → slice_get (map (λ a. appender_of a) (appenders_of c)) at ≡ Some lent
        → Appended r x o (A.sink lent) (A.sink left)
        → AppendedAt r x at o (config_sinks A.sink c) (config_sinks A.sink (left_with c at left)) }
{}
