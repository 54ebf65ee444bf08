ghost use Rattle.std.specs.Prelude.{◌≡◌, IfOk};
ghost use Rattle.lexer.specs.Outcome.{Agrees};
ghost use Rattle.script.specs.Settings.{AreChecked, after_radix, after_dims, after_datelines, after_depth};
ghost use Rattle.script.specs.Settings.{after_tags, no_settings};
ghost use Rattle.script.specs.Views.{few_list, settings_of};

use crate::few::Few;
use crate::reason::{Keyword, TextReason};

/// The settings of a machine text so far; the words of the memory apart.
#[derive(Clone, Copy)]
pub(crate) struct Settings {
    pub(crate) radices: Option<Few>,
    pub(crate) dims: Option<u32>,
    pub(crate) datelines: Option<Few>,
    pub(crate) depth: Option<u32>,
    pub(crate) tags: Option<u32>,
}

impl Settings {
    /// Nothing is set.
    pub(crate) fn none() -> Settings
        ensures none { settings_of result ≡ no_settings }
        ensures checked { AreChecked (settings_of result) }
    {
        Settings {
            radices: None,
            dims: None,
            datelines: None,
            depth: None,
            tags: None,
        }
    }

    /// The settings with the radices.
    pub(crate) fn after_radix(self, radices: Few) -> Result<Settings, TextReason>
        requires { AreChecked (settings_of self) }
        ensures value { Agrees settings_of result
            (after_radix (settings_of self) (few_list radices)) }
        ensures checked { IfOk result (λ s. AreChecked (settings_of s)) }
    {
        if self.radices.is_some() {
            return Err(TextReason::GivenTwice(Keyword::Radix));
        }
        if let Some(reason) = radices.bad_radix() {
            return Err(reason);
        }
        if let Some(dims) = self.dims
            && let Some(reason) = radices.uncounted(dims)
        {
            return Err(reason);
        }
        Ok(Settings {
            radices: Some(radices),
            ..self
        })
    }

    /// The settings with the number of dimensions.
    pub(crate) fn after_dims(self, dims: u32) -> Result<Settings, TextReason>
        requires { AreChecked (settings_of self) }
        ensures value { Agrees settings_of result (after_dims (settings_of self) dims) }
        ensures checked { IfOk result (λ s. AreChecked (settings_of s)) }
    {
        if self.dims.is_some() {
            return Err(TextReason::GivenTwice(Keyword::Dims));
        }
        if !(1 <= dims && dims <= 3) {
            return Err(TextReason::DimsLimits);
        }
        if let Some(radices) = self.radices
            && let Some(reason) = radices.uncounted(dims)
        {
            return Err(reason);
        }
        Ok(Settings {
            dims: Some(dims),
            ..self
        })
    }

    /// The settings with the datelines.
    pub(crate) fn after_datelines(self, datelines: Few) -> Result<Settings, TextReason>
        requires { AreChecked (settings_of self) }
        ensures value { Agrees settings_of result
            (after_datelines (settings_of self) (few_list datelines)) }
        ensures checked { IfOk result (λ s. AreChecked (settings_of s)) }
    {
        if self.datelines.is_some() {
            return Err(TextReason::GivenTwice(Keyword::Dateline));
        }
        let Some(radices) = self.radices else {
            return Err(TextReason::DatelineBefore(Keyword::Radix));
        };
        let Some(dims) = self.dims else {
            return Err(TextReason::DatelineBefore(Keyword::Dims));
        };
        if let Some(reason) = datelines.undated(radices.spread(dims)) {
            return Err(reason);
        }
        Ok(Settings {
            datelines: Some(datelines),
            ..self
        })
    }

    /// The settings with the depth.
    pub(crate) fn after_depth(self, depth: u32) -> Result<Settings, TextReason>
        requires { AreChecked (settings_of self) }
        ensures value { Agrees settings_of result (after_depth (settings_of self) depth) }
        ensures checked { IfOk result (λ s. AreChecked (settings_of s)) }
    {
        if self.depth.is_some() {
            return Err(TextReason::GivenTwice(Keyword::Depth));
        }
        if !(1 <= depth && depth <= 8) {
            return Err(TextReason::DepthLimits);
        }
        Ok(Settings {
            depth: Some(depth),
            ..self
        })
    }

    /// The settings with the number of tags.
    pub(crate) fn after_tags(self, tags: u32) -> Result<Settings, TextReason>
        requires { AreChecked (settings_of self) }
        ensures value { Agrees settings_of result (after_tags (settings_of self) tags) }
        ensures checked { IfOk result (λ s. AreChecked (settings_of s)) }
    {
        if self.tags.is_some() {
            return Err(TextReason::GivenTwice(Keyword::Tags));
        }
        if !(1 <= tags && tags <= 16) {
            return Err(TextReason::TagsLimits);
        }
        Ok(Settings {
            tags: Some(tags),
            ..self
        })
    }
}
