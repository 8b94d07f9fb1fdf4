ghost use Rattle.std.specs.Prelude.{◌≡◌, [], length, IfOk, IfSome, IfNone, OnOk, OnErr, OnSome, option_map};
ghost use Rattle.std.specs.List.{slice_get};

use crate::entries::{set_value, swap_value, take_out};
use crate::names::{are_fields, place};
use crate::value::Value;
use document_keys::{NoMemory, Text};
use std::alloc::Global;
use std::marker::Model;

/// A field of a document: its name and its value.
#[cycle(value)]
#[derive(Debug, Drop)]
pub struct Field {
    pub name: Text,
    pub value: Value,
}

/// The fields of a document or of a map, strictly ascending by the bytes of their names, each of which is a field's name:
/// 1 to 1,500 bytes, not of the form `__.*__`. Contracts see them as the list of their names and values.
#[cycle(value)]
#[derive(Debug, Drop)]
pub struct Fields {
    entries: Vec<Field>,
}

impl Model for Fields {
    ghost use Rattle.value_model.specs.Data.{Entries};
    ghost use Rattle.value_model.specs.Codes.{entries_code, entries_size};

    ghost Value = { Entries };

    ghost coded = { entries_code };

    ghost use Rattle.value_model.specs.Fields.{AreFields};
    ghost use Rattle.value_model.specs.Named.{fields_data};

    ghost view = { λ fields. fields_data fields.entries.items };

    ghost invariant = { λ fields. AreFields (fields_data fields.entries.items) };

    ghost size = { entries_size };

    ghost use Rattle.std.proofs.Common.{arith};
    ghost use Rattle.value_model.specs.Falls.{entries_fall};

    ghost size_decreases = { λ fields holds. omega (arith, entries_fall fields.entries.items) };
}

impl Field {
    /// A copy.
    ///
    /// # Errors
    /// `NoMemory`
    pub fn copy(&self, alloc: Global) -> Result<Field, NoMemory>
        ensures { IfOk result (λ field. field ≡ self.now) }
    {
        let name = self.name.copy(alloc)?;
        let value = self.value.copy(alloc)?;
        Ok(Field { name, value })
    }
}

impl Fields {
    ghost use Rattle.document_keys.specs.Paths.{IsFieldName};
    ghost use Rattle.value_model.specs.Fields.{AreFields, field, with_field, without_field};
    ghost use Rattle.value_model.specs.Named.{fields_data};

    /// No fields. It takes no memory yet.
    pub fn new(alloc: Global) -> Fields
        ensures { result ≡ [] }
    {
        Fields {
            entries: Vec::new(alloc),
        }
    }

    /// No fields, with room for so many.
    ///
    /// # Errors
    /// `NoMemory`
    pub fn with_capacity(alloc: Global, room: usize) -> Result<Fields, NoMemory>
        ensures { IfOk result (λ fields. fields ≡ []) }
    {
        let entries = Vec::with_capacity(alloc, room)?;
        Ok(Fields { entries })
    }

    /// These fields; `None` exactly where their names aren't strictly ascending or one isn't a field's name.
    pub fn from_entries(entries: Vec<Field>) -> Option<Fields>
        ensures some { IfSome result (λ fields. (fields ≡ fields_data entries.items) × AreFields fields) }
        ensures none { IfNone result (¬ (AreFields (fields_data entries.items))) }
    {
        if are_fields(entries.as_slice()) {
            Some(Fields { entries })
        } else {
            None
        }
    }

    /// The number of fields.
    pub fn len(&self) -> u64
        ensures count { result ≡ length self.now }
        ensures fields { AreFields self.now }
    {
        self.entries.len() as u64
    }

    /// The name at the index, from 0, or `None` past the last.
    pub fn name_at(&self, index: u64) -> Option<&str>
        ensures { option_map (λ name. name.now) result
            ≡ option_map (λ field. field.0) (slice_get self.now index) }
    {
        let field = self.entries.get(index as usize)?;
        Some(field.name.as_str())
    }

    /// The value at the index, from 0, or `None` past the last.
    pub fn value_at(&self, index: u64) -> Option<&Value>
        ensures { option_map (λ value. value.now) result
            ≡ option_map (λ field. field.1) (slice_get self.now index) }
    {
        let field = self.entries.get(index as usize)?;
        Some(&field.value)
    }

    /// The fields in their order, lent.
    pub fn as_slice(&self) -> &[Field]
        ensures shown { fields_data result.now ≡ self.now }
        ensures fields { AreFields self.now }
    {
        self.entries.as_slice()
    }

    /// The value at the name, if there is one.
    pub fn get(&self, name: &str) -> Option<&Value>
        ensures { option_map (λ value. value.now) result ≡ field self.now name.now }
    {
        match place(self.entries.as_slice(), name) {
            Ok(at) => Some(&self.entries[at].value),
            Err(_) => None,
        }
    }

    /// Puts the value at the name, which is a field's name, in place of the one that stood there.
    ///
    /// # Errors
    /// `NoMemory`: the fields are then as before.
    pub fn put(&mut self, _alloc: Global, name: Text, value: Value) -> Result<(), NoMemory>
        requires { IsFieldName name }
        ensures done { OnOk result (self.new ≡ with_field self.old name value) }
        ensures undone { OnErr result (self.new ≡ self.old) }
        ensures fields { AreFields self.new }
    {
        match place(self.entries.as_slice(), name.as_str()) {
            Ok(at) => {
                set_value(&mut self.entries, at, value);
                Ok(())
            }
            Err(at) => {
                self.entries.insert(at, Field { name, value })?;
                Ok(())
            }
        }
    }

    /// Puts the value in place of the one at the name, which it gives back; where there is none, it does nothing.
    pub fn replace(&mut self, name: &str, value: Value) -> Option<Value>
        ensures before { result ≡ field self.old name.now }
        ensures there { OnSome result (self.new ≡ with_field self.old name.now value) }
        ensures missing { IfNone result (self.new ≡ self.old) }
        ensures fields { AreFields self.new }
    {
        match place(self.entries.as_slice(), name) {
            Ok(at) => Some(swap_value(&mut self.entries, at, value)),
            Err(_) => None,
        }
    }

    /// Takes the name's field away, if there is one.
    pub fn remove(&mut self, name: &str)
        ensures done { self.new ≡ without_field self.old name.now }
        ensures fields { AreFields self.new }
    {
        if let Ok(at) = place(self.entries.as_slice(), name) {
            take_out(&mut self.entries, at);
        }
    }

    /// A copy, by a copy of each value.
    ///
    /// # Errors
    /// `NoMemory`
    pub fn copy(&self, alloc: Global) -> Result<Fields, NoMemory>
        ensures { IfOk result (λ fields. fields ≡ self.now) }
    {
        let mut entries = Vec::with_capacity(alloc, self.entries.len())?;
        for field in &self.entries {
            let name = field.name.copy(alloc)?;
            let value = field.value.copy(alloc)?;
            entries.push(Field { name, value })?;
        }
        Ok(Fields { entries })
    }
}
