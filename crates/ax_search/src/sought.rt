//! What a search looks for.
ghost use Rattle.std.specs.Prelude.{◌≡◌, IfOk, string_bytes};
ghost use Rattle.std.specs.Option.{option_map};
ghost use Rattle.ax_search.specs.Folding.{folded, holds};
ghost use Rattle.ax_search.specs.Searches.{is_found_by};

use crate::keys::has_any_key;
use ax_ask::SearchKey;
use ax_base::{NoMemory, Text};
use ax_record::{Record, Wanted};
use caseless::default_case_fold_str;
use memchr::memmem;
use std::alloc::Global;

/// The objects that a search finds: those of one of the kinds and, where there are folded words, with a folded name that
/// holds them. A name is folded only where the object is of one of the kinds.
#[derive(Drop)]
pub(crate) struct Sought<'a> {
    pub(crate) alloc: Global,
    pub(crate) keys: &'a [SearchKey],
    pub(crate) words: Option<Text>,
}

impl<'a> Wanted for Sought<'a> {
    type Error = NoMemory;

    ghost wants = { λ s r. is_found_by s.keys.now s.words r };

    fn is_wanted(&self, object: &Record) -> Result<bool, NoMemory> {
        if !has_any_key(self.keys, object) {
            return Ok(false);
        }
        match &self.words {
            None => Ok(true),
            Some(words) => name_holds(self.alloc, object, words.as_str()),
        }
    }
}

/// Some words, folded.
pub(crate) fn fold_words(alloc: Global, words: &Option<Text>) -> Result<Option<Text>, NoMemory>
    ensures { IfOk result (λ text. text ≡ option_map folded words.now) }
{
    match words {
        None => Ok(None),
        Some(words) => {
            let folded = default_case_fold_str(alloc, words.as_str())?;
            Ok(Some(Text::from_string(folded)))
        }
    }
}

/// Whether the folded name of an object holds folded words.
fn name_holds(alloc: Global, object: &Record, words: &str) -> Result<bool, NoMemory>
    ensures { IfOk result (λ is. is ≡ holds (folded object.now.name) words.now) }
{
    let name = default_case_fold_str(alloc, object.name.as_str())?;
    Ok(contains(name.as_str(), words))
}

/// Whether a text holds another.
fn contains(text: &str, part: &str) -> bool
    ensures { result ≡ holds text.now part.now }
{
    memmem::find(text.as_bytes(), part.as_bytes()).is_some()
}
