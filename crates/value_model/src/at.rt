//! Values at paths.

ghost use Rattle.std.specs.Prelude.{◌≡◌, option_map, drop};
ghost use Rattle.value_model.specs.Paths.{value_at, value_in, member_at};

use crate::fields::Fields;
use crate::value::{Kind, Value};
use document_keys::FieldPath;

impl Value {
    /// The value's member of this name, if it is a map and has one.
    pub fn member(&self, name: &str) -> Option<&Value>
        ensures { option_map (λ value. value.now) result ≡ member_at self.now name.now }
    {
        match &self.kind {
            Kind::Map(fields) => fields.as_fields().get(name),
            _ => None,
        }
    }
}

/// What stands inside the value at the names of the path from this index on.
fn inside<'a>(value: &'a Value, path: &FieldPath, from: u64) -> Option<&'a Value>
    ensures { option_map (λ value. value.now) result ≡ value_in value.now (drop from path.now) }
{
    let mut found = value;
    for i in from..path.len() {
        found = found.member(path.segment(i)?)?;
    }
    Some(found)
}

impl Fields {
    /// The value at the path, if there is one: each name but the last leads into a map.
    pub fn at(&self, path: &FieldPath) -> Option<&Value>
        ensures { option_map (λ value. value.now) result ≡ value_at self.now path.now }
    {
        let _names = path.len();
        let value = self.get(path.segment(0)?)?;
        inside(value, path, 1)
    }
}
