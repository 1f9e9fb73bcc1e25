//! States of objects, and how soon a change in them is told.
ghost use Rattle.std.specs.Prelude.{◌≡◌, Some};
ghost use Rattle.ax_base.specs.SettingWords.{checked_word, live_word};

use std::fmt;

/// Whether an object is checked (WAI-ARIA 1.2, `aria-checked` and `aria-pressed`).
#[derive(Clone, Copy, Debug, PartialEq, Eq)]
pub enum Checked {
    No,
    Yes,
    Mixed,
}

impl Checked {
    /// The word of the standard: the value of `aria-checked`, or of `aria-pressed`.
    pub fn as_str(self) -> &'static str
        ensures { result.now ≡ checked_word self }
    {
        match self {
            Checked::No => "false",
            Checked::Yes => "true",
            Checked::Mixed => "mixed",
        }
    }
}

impl fmt::Display for Checked {
    ghost output = { λ checked. Some (checked_word checked) };

    fn fmt<W: fmt::Write>(&self, f: &mut fmt::Formatter<W>) -> fmt::Result {
        f.write_str(self.as_str())
    }
}

/// How soon a change in a live region is told (WAI-ARIA 1.2, `aria-live`).
#[derive(Clone, Copy, Debug, PartialEq, Eq)]
pub enum Live {
    Off,
    Polite,
    Assertive,
}

impl Live {
    /// The word of the standard: the value of `aria-live`.
    pub fn as_str(self) -> &'static str
        ensures { result.now ≡ live_word self }
    {
        match self {
            Live::Off => "off",
            Live::Polite => "polite",
            Live::Assertive => "assertive",
        }
    }
}

impl fmt::Display for Live {
    ghost output = { λ live. Some (live_word live) };

    fn fmt<W: fmt::Write>(&self, f: &mut fmt::Formatter<W>) -> fmt::Result {
        f.write_str(self.as_str())
    }
}

/// The states of an object. `None` says that the object does not have the state at all.
#[derive(Clone, Copy, Debug, PartialEq, Eq)]
pub struct States {
    pub focusable: bool,
    pub disabled: bool,
    pub checked: Option<Checked>,
    pub expanded: Option<bool>,
    pub selected: Option<bool>,
    pub pressed: Option<Checked>,
    pub required: bool,
    pub readonly: bool,
    pub invalid: bool,
    pub busy: bool,
}

impl States {
    /// No state at all.
    pub const NONE: States = States {
        focusable: false,
        disabled: false,
        checked: None,
        expanded: None,
        selected: None,
        pressed: None,
        required: false,
        readonly: false,
        invalid: false,
        busy: false,
    };
}
