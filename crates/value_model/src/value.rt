ghost use Rattle.std.specs.Prelude.{◌≡◌, IfOk};
ghost use Rattle.value_model.specs.Data as Data;

use crate::bytes::Bytes;
use crate::fields::Fields;
use crate::reference::RefName;
use crate::shared_fields::SharedFields;
use crate::shared_values::SharedValues;
use crate::timestamp::Timestamp;
use document_keys::{NoMemory, Replicate, Text};
use std::alloc::Global;
use std::marker::Model;

/// A value of a field. Contracts see it as the plain data of its kind.
#[cycle(value)]
#[derive(Debug, Drop)]
pub struct Value {
    pub kind: Kind,
}

/// The kinds of value, in their order.
#[cycle(value)]
#[derive(Debug, Drop)]
pub enum Kind {
    Null,
    Boolean(bool),
    /// A whole number of 64 bits with sign.
    Integer(i64),
    Time(Timestamp),
    /// A time that the backend sets, and that isn't known yet: the local time of the write that asked for it.
    Pending(Timestamp),
    Text(Text),
    Bytes(Bytes),
    /// The name of a document, in a box since it is larger than what other kinds hold.
    Reference(Box<RefName>),
    /// Values in an order. Copies of an array share them, as those of a map share its fields.
    Array(SharedValues),
    Map(SharedFields),
}

impl Model for Value {
    ghost use Rattle.value_model.specs.Data.{Data};
    ghost use Rattle.value_model.specs.Codes.{data_code, data_size};

    ghost Value = { Data };

    ghost coded = { data_code };

    ghost use Rattle.value_model.specs.View.{kind_data};

    ghost view = { λ value. kind_data value.kind };

    ghost size = { data_size };

    ghost use Rattle.value_model.specs.Falls.{kind_falls};

    ghost size_decreases = { λ value holds. kind_falls value.kind };
}

impl Value {
    ghost use Rattle.value_model.specs.Arrays.{items_in};

    /// The array of these values, which it takes over.
    ///
    /// # Errors
    /// `NoMemory`
    pub fn array(alloc: Global, values: Vec<Value>) -> Result<Value, NoMemory>
        ensures { IfOk result (λ value. value ≡ Data.array_of values.items) }
    {
        Ok(Value {
            kind: Kind::Array(SharedValues::new(alloc, values)?),
        })
    }

    /// The items of an array, lent; another value has none.
    pub fn items(&self) -> &[Value]
        ensures { result.now ≡ items_in self.now }
    {
        match &self.kind {
            Kind::Array(values) => values.as_slice(),
            _ => &[],
        }
    }

    /// The map of these fields, which it takes over.
    ///
    /// # Errors
    /// `NoMemory`
    pub fn map(alloc: Global, fields: Fields) -> Result<Value, NoMemory>
        ensures { IfOk result (λ value. value ≡ Data.map_of fields) }
    {
        Ok(Value {
            kind: Kind::Map(SharedFields::new(alloc, fields)?),
        })
    }

    /// A copy. It shares what an array or a map holds, so that costs the same however much it is.
    ///
    /// # Errors
    /// `NoMemory`
    pub fn copy(&self, alloc: Global) -> Result<Value, NoMemory>
        ensures { IfOk result (λ value. value ≡ self.now) }
    {
        let kind = match &self.kind {
            Kind::Null => Kind::Null,
            Kind::Boolean(is) => Kind::Boolean(*is),
            Kind::Integer(number) => Kind::Integer(*number),
            Kind::Time(time) => Kind::Time(*time),
            Kind::Pending(time) => Kind::Pending(*time),
            Kind::Text(text) => Kind::Text(text.copy(alloc)?),
            Kind::Bytes(bytes) => Kind::Bytes(bytes.copy(alloc)?),
            Kind::Reference(name) => Kind::Reference(Box::new(alloc, name.copy(alloc)?)?),
            Kind::Array(values) => Kind::Array(values.share()?),
            Kind::Map(fields) => Kind::Map(fields.share()?),
        };
        Ok(Value { kind })
    }
}

impl Replicate for Value {
    fn replicate(&self, alloc: Global) -> Result<Value, NoMemory> {
        self.copy(alloc)
    }
}
