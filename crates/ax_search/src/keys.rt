//! The kinds of objects that a search looks for.
ghost use Rattle.std.specs.Prelude.{◌≡◌};
ghost use Rattle.std.specs.List.{list_any};
ghost use Rattle.ax_search.specs.Keys.{has_key, has_any_key, is_one_of};

use ax_ask::SearchKey;
use ax_base::{Live, Role};
use ax_record::Record;

/// The roles of fields to fill in.
const FIELDS: [Role; 5] = [
    Role::Textbox,
    Role::Searchbox,
    Role::Combobox,
    Role::Spinbutton,
    Role::Slider,
];

/// The roles of controls that are no fields.
const SWITCHES: [Role; 4] = [Role::Button, Role::Checkbox, Role::Radio, Role::Switch];

/// The roles of landmarks.
const LANDMARKS: [Role; 8] = [
    Role::Banner,
    Role::Complementary,
    Role::Contentinfo,
    Role::Form,
    Role::Main,
    Role::Navigation,
    Role::Region,
    Role::Search,
];

/// The roles of tables.
const TABLES: [Role; 3] = [Role::Table, Role::Grid, Role::Treegrid];

/// Whether an object is of one of some kinds.
pub(crate) fn has_any_key(keys: &[SearchKey], object: &Record) -> bool
    ensures { result ≡ has_any_key keys.now object.now }
{
    keys.iter().any(|key| has_key(*key, object))
}

/// Whether an object is of a kind.
fn has_key(key: SearchKey, object: &Record) -> bool
    ensures { result ≡ has_key key object.now }
{
    let role = object.role;
    match key {
        SearchKey::Any => true,
        SearchKey::Text => role == Role::Text,
        SearchKey::Heading => role == Role::Heading,
        SearchKey::Link => role == Role::Link,
        SearchKey::Button => role == Role::Button,
        SearchKey::Checkbox => role == Role::Checkbox,
        SearchKey::Radio => role == Role::Radio,
        SearchKey::List => role == Role::List,
        SearchKey::Field => is_one_of(role, &FIELDS),
        SearchKey::Control => is_one_of(role, &FIELDS) || is_one_of(role, &SWITCHES),
        SearchKey::Landmark => is_one_of(role, &LANDMARKS),
        SearchKey::Table => is_one_of(role, &TABLES),
        SearchKey::Image => role == Role::Img,
        SearchKey::Live => object.live != Live::Off,
        SearchKey::Focusable => object.states.focusable,
    }
}

/// Whether a role is one of some.
fn is_one_of(role: Role, some: &[Role]) -> bool
    ensures { result ≡ is_one_of role some.now }
{
    some.iter().any(|other| role == *other)
}
