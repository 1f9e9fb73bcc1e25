//! The role that the host language gives to an element.
ghost use Rattle.std.specs.Prelude.{◌≡◌};
ghost use Rattle.ax_base.specs.Roles.{implicit_role, role_of_anchor, role_of_image, role_of_input, has_blank_alt};

use ax_base::{Attrs, Role, is_blank};

/// The role of an element by its tag.
pub(crate) fn implicit_role(tag: &str, attrs: &Attrs) -> Role
    ensures { result ≡ implicit_role tag.now attrs.now }
{
    match tag {
        "main" => Role::Main,
        "article" => Role::Article,
        "button" => Role::Button,
        "nav" => Role::Navigation,
        "p" => Role::Paragraph,
        "h1" => Role::Heading,
        "h2" => Role::Heading,
        "h3" => Role::Heading,
        "h4" => Role::Heading,
        "h5" => Role::Heading,
        "h6" => Role::Heading,
        "a" => role_of_anchor(attrs),
        "img" => role_of_image(attrs),
        "ul" => Role::List,
        "ol" => Role::List,
        "li" => Role::Listitem,
        "table" => Role::Table,
        "tr" => Role::Row,
        "td" => Role::Cell,
        "th" => Role::Columnheader,
        "textarea" => Role::Textbox,
        "input" => role_of_input(attrs),
        _ => Role::Generic,
    }
}

/// The role of `a`: a link with `href`, else generic.
fn role_of_anchor(attrs: &Attrs) -> Role
    ensures { result ≡ role_of_anchor attrs.now }
{
    if attrs.has("href") {
        Role::Link
    } else {
        Role::Generic
    }
}

/// The role of `img`: none where `alt` is there and blank.
fn role_of_image(attrs: &Attrs) -> Role
    ensures { result ≡ role_of_image attrs.now }
{
    if has_blank_alt(attrs) {
        Role::NoRole
    } else {
        Role::Img
    }
}

fn has_blank_alt(attrs: &Attrs) -> bool
    ensures { result ≡ has_blank_alt attrs.now }
{
    attrs.has("alt") && is_blank(attrs.text("alt"))
}

/// The role of `input`, by the word of its `type`.
fn role_of_input(attrs: &Attrs) -> Role
    ensures { result ≡ role_of_input attrs.now }
{
    if attrs.has_word("type", "checkbox") {
        Role::Checkbox
    } else if attrs.has_word("type", "radio") {
        Role::Radio
    } else if attrs.has_word("type", "range") {
        Role::Slider
    } else if attrs.has_word("type", "button") {
        Role::Button
    } else if attrs.has_word("type", "submit") {
        Role::Button
    } else if attrs.has_word("type", "reset") {
        Role::Button
    } else {
        Role::Textbox
    }
}
