//! The builder of fixed-window rollers.

ghost use Rattle.std.specs.Prelude.{◌≡◌, ◌≢◌, ◌↔◌, ◌+◌, ◌<◌, ◌^◌, false, Some, None, Err, IfOk, IfSome, IfErr, OnOk, IsTrue, string_bytes};
ghost use Rattle.log4rs_base.specs.Parent.{parent_of};
ghost use Rattle.log4rs_rolling.specs.Archives.{name_at, refusal};
ghost use Rattle.log4rs_rolling.specs.Roller.{fixed_window, job_of, was_asked, kept_by, background_of, base_of, rename_only_of};

use crate::fixed_window::FixedWindowRoller;
use crate::names::{has_extension, has_placeholder, name_at};
use log4rs_base::{RollerError, expand_env_vars, parent_of};
use std::alloc::Global;
use std::collections::BTreeMap;

/// Builds a fixed-window roller.
#[derive(Clone, Copy, Debug, PartialEq, Eq, Hash, Default)]
pub struct FixedWindowRollerBuilder {
    base: u32,
    rename_only: bool,
    background: bool,
}

impl FixedWindowRoller {
    /// Creates a builder. Its lowest index is 0; it rolls at once, and copies if a rename is
    /// refused.
    pub fn builder() -> FixedWindowRollerBuilder
        ensures base { base_of result ≡ 0 }
        ensures rename_only { rename_only_of result ≡ false }
        ensures background { background_of result ≡ false }
    {
        FixedWindowRollerBuilder {
            base: 0,
            rename_only: false,
            background: false,
        }
    }
}

impl FixedWindowRollerBuilder {
    /// Sets the lowest index, which the newest archive has.
    pub fn base(self, base: u32) -> FixedWindowRollerBuilder
        ensures base { base_of result ≡ base }
        ensures rename_only { rename_only_of result ≡ rename_only_of self }
        ensures background { background_of result ≡ background_of self }
    {
        FixedWindowRollerBuilder { base, ..self }
    }

    /// Sets whether a rotation fails if a rename is refused. If not, the file is copied and
    /// removed.
    pub fn rename_only(self, rename_only: bool) -> FixedWindowRollerBuilder
        ensures base { base_of result ≡ base_of self }
        ensures rename_only { rename_only_of result ≡ rename_only }
        ensures background { background_of result ≡ background_of self }
    {
        FixedWindowRollerBuilder {
            rename_only,
            ..self
        }
    }

    /// Sets whether rotations go on in the background: a rotation only renames the file, and the
    /// rest is done in steps, by renames alone. If not, it is done at once.
    pub fn background(self, background: bool) -> FixedWindowRollerBuilder
        ensures base { base_of result ≡ base_of self }
        ensures rename_only { rename_only_of result ≡ rename_only_of self }
        ensures background { background_of result ≡ background }
    {
        FixedWindowRollerBuilder { background, ..self }
    }

    /// Creates a roller that keeps `count` archives. Their names are the pattern with the index in
    /// decimal in place of each `{}`, and then the values of the variables in place of each
    /// `$ENV{name}`.
    ///
    /// Fails with `NoPlaceholder` if the pattern has no `{}`, with `GzipRequired` or `ZstdRequired`
    /// if its extension is `gz` or `zst`, and with `WindowTooLarge` if the lowest index plus the
    /// count exceeds 4294967295. These are checked first, in this order. Fails with `Memory` if an
    /// allocation fails.
    pub fn build(
        self,
        alloc: Global,
        pattern: &str,
        count: u32,
        env: &BTreeMap<String, String>,
    ) -> Result<FixedWindowRoller, RollerError>
        ensures kept { IfOk result (λ roller.
            kept_by roller ≡ fixed_window (name_at pattern.now env.now) (base_of self) count
            (rename_only_of self) (background_of self)) }
        ensures no_job { IfOk result (λ roller. job_of roller ≡ None) }
        ensures unasked { IfOk result (λ roller. was_asked roller ≡ false) }
        ensures accepted { OnOk result (refusal pattern.now (base_of self + count) ≡ None) }
        ensures refused { IfErr result (λ e. e ≢ RollerError.Memory
            → refusal pattern.now (base_of self + count) ≡ Some e) }
        ensures named { IfSome (refusal pattern.now (base_of self + count))
            (λ e. result ≡ Err e) }
    {
        check(pattern, self.base, count)?;
        let newest = name_at(alloc, pattern, env, self.base)?;
        let plain = expand_env_vars(alloc, pattern, env)?;
        Ok(FixedWindowRoller {
            alloc,
            pattern: String::from_str(alloc, pattern)?,
            env: env.clone()?,
            base: self.base,
            count,
            rename_only: self.rename_only,
            background: self.background,
            job: None,
            asked: false,
            folders_vary: folders_differ(newest.as_str(), plain.as_str()),
        })
    }
}

/// Checks the pattern and the window.
fn check(pattern: &str, base: u32, count: u32) -> Result<(), RollerError>
    ensures accepted { OnOk result (refusal pattern.now (base + count) ≡ None) }
    ensures room { OnOk result (base + count < 2 ^ 32) }
    ensures refused { IfErr result (λ e. refusal pattern.now (base + count) ≡ Some e) }
{
    if !has_placeholder(pattern) {
        return Err(RollerError::NoPlaceholder);
    }
    if has_extension(pattern, ".gz", "/.gz") {
        return Err(RollerError::GzipRequired);
    }
    if has_extension(pattern, ".zst", "/.zst") {
        return Err(RollerError::ZstdRequired);
    }
    if count > u32::MAX - base {
        return Err(RollerError::WindowTooLarge);
    }
    Ok(())
}

/// Returns whether two paths have different parents.
fn folders_differ(one: &str, other: &str) -> bool
    ensures { IsTrue result ↔ (parent_of one.now ≢ parent_of other.now) }
{
    parent_of(one) != parent_of(other)
}
