//! Appends that return the decision of their trigger.

ghost use Rattle.std.specs.Prelude.{◌≡◌, IsTrue};
ghost use Rattle.log4rs_rolling.specs.AppendResults.{AnsweredAppend};
ghost use Rattle.log4rs_rolling.specs.Asking.{Noted, UnlessYes};
ghost use Rattle.log4rs_rolling.specs.AppendResults.{GrownAppend, LimitedAppend, MadeAppend};
ghost use Rattle.log4rs_rolling.specs.Triggers.{trigger_of};
ghost use Rattle.log4rs_rolling.specs.FileChanges.{way};

use crate::append::Append;
use crate::rolling_file::RollingFileAppender;
use log4rs_base::{Context, LogError, Record};
use log4rs_encode::Encode;
use log4rs_rolling::store::Store;
use log4rs_rolling::{CompoundPolicyOf, NotedTrigger, Roll, Trigger};

impl<S: Store + Drop, T: Trigger + Drop, R: Roll<S> + Drop, E: Encode> RollingFileAppender<
    S,
    CompoundPolicyOf<NotedTrigger<T>, R>,
    E,
> {
    ghost use Rattle.log4rs_append.specs.Rolling.{store_of, policy_of, path_of, appends};
    ghost use Rattle.log4rs_append.specs.Rolling.{encoder_of, IsSamePlace};
    ghost use Rattle.log4rs_append.specs.Sink.{plain_reading};
    ghost use Rattle.log4rs_append.specs.Texts.{fails_by};

    /// Appends a record as `append` does, and returns its result and the decision of the trigger,
    /// if that was called.
    pub fn append_noted(
        &mut self,
        record: &Record,
        context: &Context<'_>,
    ) -> (Result<(), LogError>, Option<bool>)
        // The clauses of `append`, of this decision. The roller changes only if the trigger fires.
        ensures answered { Noted (T.notes context.now) (trigger_of (policy_of self.old).trigger)
            result.1 (trigger_of (policy_of self.new).trigger)
            × UnlessYes result.1 ((policy_of self.new).roller ≡ (policy_of self.old).roller)
            × AnsweredAppend (plain_reading (E.rendering (encoder_of self.old)))
            «record».now context.now
            (⟦<NotedTrigger<T> as Trigger>⟧.asking (policy_of self.old).trigger) result.1
            (R.keeping (policy_of self.old).roller) (R.keeping (policy_of self.new).roller)
            (appends self.old) (path_of self.old) result.0
            (S.disk (store_of self.old)) (S.disk (store_of self.new)) }
        ensures limited { LimitedAppend (R.keeping (policy_of self.old).roller)
            (R.keeping (policy_of self.new).roller) (path_of self.old) (way (appends self.old))
            (S.disk (store_of self.old)) (S.disk (store_of self.new)) }
        ensures made { IsTrue (R.keeping (policy_of self.old).roller).is_built_in
            → MadeAppend (plain_reading (E.rendering (encoder_of self.old)))
            (fails_by (E.answers (encoder_of self.old))) «record».now context.now
            (⟦<NotedTrigger<T> as Trigger>⟧.asking (policy_of self.old).trigger)
            (R.keeping (policy_of self.old).roller) (path_of self.old) result.0
            (S.disk (store_of self.old)) (S.disk (store_of self.new)) }
        ensures grown { IsTrue (appends self.old)
            → GrownAppend (plain_reading (E.rendering (encoder_of self.old)))
            «record».now context.now
            (⟦<NotedTrigger<T> as Trigger>⟧.asking (policy_of self.old).trigger)
            (R.keeping (policy_of self.old).roller) (R.keeping (policy_of self.new).roller)
            (path_of self.old) result.0
            (S.disk (store_of self.old)) (S.disk (store_of self.new)) }
        ensures reading { plain_reading (E.rendering (encoder_of self.new))
            ≡ plain_reading (E.rendering (encoder_of self.old)) }
        ensures kind { (⟦<NotedTrigger<T> as Trigger>⟧.asking (policy_of self.new).trigger).kind
            ≡ (⟦<NotedTrigger<T> as Trigger>⟧.asking (policy_of self.old).trigger).kind }
        ensures same { IsSamePlace self.old self.new }
    {
        self.policy.trigger.forget();
        let outcome = self.append(record, context);
        let answer = self.policy.trigger.answer();
        (outcome, answer)
    }
}
