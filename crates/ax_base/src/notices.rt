//! Notices: what has changed from one moment to the next.
ghost use Rattle.std.specs.Prelude.{◌≡◌, Some};
ghost use Rattle.ax_base.specs.SettingWords.{kind_word};

use crate::{Moment, ObjId, Sequence};
use std::fmt;

/// What a notice is about.
#[derive(Clone, Copy, Debug, PartialEq, Eq)]
pub enum NoticeKind {
    Focus,
    Children,
    Name,
    Value,
    Checked,
    Expanded,
    Selected,
    Live,
}

impl NoticeKind {
    /// The word that a transcript has for the kind.
    pub fn as_str(self) -> &'static str
        ensures { result.now ≡ kind_word self }
    {
        match self {
            NoticeKind::Focus => "focus",
            NoticeKind::Children => "children",
            NoticeKind::Name => "name",
            NoticeKind::Value => "value",
            NoticeKind::Checked => "checked",
            NoticeKind::Expanded => "expanded",
            NoticeKind::Selected => "selected",
            NoticeKind::Live => "live",
        }
    }
}

impl fmt::Display for NoticeKind {
    ghost output = { λ kind. Some (kind_word kind) };

    fn fmt<W: fmt::Write>(&self, f: &mut fmt::Formatter<W>) -> fmt::Result {
        f.write_str(self.as_str())
    }
}

/// A notice of a moment: its kind and its object. A notice of the focus names the object that has it, or none.
#[derive(Clone, Copy, Debug, PartialEq, Eq)]
pub struct Notice {
    pub moment: Moment,
    pub kind: NoticeKind,
    pub id: Option<ObjId>,
}

/// Some notices, in order. A clause sees them as a list.
pub type Notices = Sequence<Notice>;
