//! The attributes of an element.
ghost use Rattle.std.specs.Prelude.{◌≡◌, ◌++◌, ◌∷◌, IfOk, OnOk, OnErr, None, [], bytes_eq, option_copied};
ghost use Rattle.std.specs.List.{position};
ghost use Rattle.ax_base.specs.Attributes.{value_of, with_value, without_name, HasDistinctNames};

use crate::{NoMemory, Text};
use std::alloc::Global;
use std::marker::Model;

/// An attribute: its name and its value.
#[derive(Debug, Drop)]
pub struct Attr {
    pub name: Text,
    pub value: Text,
}

impl Attr {
    /// An equal attribute.
    pub fn copy(&self, alloc: Global) -> Result<Attr, NoMemory>
        ensures { IfOk result (λ attr. attr ≡ self.now) }
    {
        Ok(Attr {
            name: self.name.copy(alloc)?,
            value: self.value.copy(alloc)?,
        })
    }
}

/// The attributes of an element, with distinct names. A clause sees them as a list.
#[derive(Debug, Drop)]
pub struct Attrs {
    items: Vec<Attr>,
}

impl Model for Attrs {
    ghost use Rattle.std.specs.Prelude.{List};
    ghost use Rattle.ax_base.specs.declared.attrs.Attr.{Attr};
    ghost use Rattle.ax_base.specs.Attributes.{HasDistinctNames};

    ghost Value = { List Attr };

    ghost view = { λ a. a.items.items };

    ghost invariant = { λ a. HasDistinctNames a.items.items };
}

impl Attrs {
    /// No attributes. It takes no memory.
    pub fn new(alloc: Global) -> Attrs
        ensures { result ≡ [] }
    {
        Attrs {
            items: Vec::new(alloc),
        }
    }

    /// These attributes. It takes no memory.
    pub fn from_vec(items: Vec<Attr>) -> Attrs
        requires { HasDistinctNames items.items }
        ensures { result ≡ items.items }
    {
        Attrs { items }
    }

    /// The attributes in their order.
    pub fn as_slice(&self) -> &[Attr]
        ensures items { result.now ≡ self.now }
        ensures distinct { HasDistinctNames self.now }
    {
        self.items.as_slice()
    }

    /// The attributes as a `Vec`. It takes no memory.
    pub fn into_vec(self) -> Vec<Attr>
        ensures { result.items ≡ self }
    {
        self.items
    }

    /// Adds an attribute at the end. At an error nothing changes.
    pub fn push(&mut self, attr: Attr) -> Result<(), NoMemory>
        requires { value_of attr.name self.old ≡ None }
        ensures ok { OnOk result (self.new ≡ self.old ++ attr ∷ []) }
        ensures err { OnErr result (self.new ≡ self.old) }
    {
        self.items.push(attr)?;
        Ok(())
    }

    /// Gives an attribute a value, in the place of the one that it has or at the end. At an error nothing changes.
    pub fn set(&mut self, name: Text, value: Text) -> Result<(), NoMemory>
        ensures ok { OnOk result (self.new ≡ with_value name value self.old) }
        ensures err { OnErr result (self.new ≡ self.old) }
    {
        match self.place_of(&name) {
            Some(place) => {
                self.items[place].value = value;
                Ok(())
            }
            None => self.push(Attr { name, value }),
        }
    }

    /// Takes an attribute away. Where there is none of that name nothing changes.
    pub fn unset(&mut self, name: &Text)
        ensures { self.new ≡ without_name name.now self.old }
    {
        if let Some(place) = self.place_of(name) {
            self.items.remove(place);
        }
    }

    /// The place of the attribute of a name.
    fn place_of(&self, name: &Text) -> Option<usize>
        ensures place { result ≡ position (λ a. bytes_eq a.name name.now) self.now }
        ensures distinct { HasDistinctNames self.now }
    {
        self.items
            .iter()
            .position(|attr| attr.name.is(name.as_str()))
    }

    /// Equal attributes.
    pub fn copy(&self, alloc: Global) -> Result<Attrs, NoMemory>
        ensures { IfOk result (λ attrs. attrs ≡ self.now) }
    {
        let mut items = Vec::with_capacity(alloc, self.items.len())?;
        for attr in &self.items {
            items.push(attr.copy(alloc)?)?;
        }
        Ok(Attrs { items })
    }

    /// The value of an attribute, or `None` exactly where there is none of that name.
    pub fn get(&self, name: &str) -> Option<&Text>
        ensures { option_copied result ≡ value_of name.now self.now }
    {
        for attr in &self.items {
            if attr.name.is(name) {
                return Some(&attr.value);
            }
        }
        None
    }
}
