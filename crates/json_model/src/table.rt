//! The tables: what is to stand under which name of which object. A new object is a row here, and in `specs/Places.antt`. A name
//! is compared with one row after another, so what comes most stands first in the long tables of values, lines and writes.

ghost use Rattle.std.specs.Prelude.{◌≡◌, map, IsTrue, if◌then◌else◌};
ghost use Rattle.std.specs.Str.{bytes_eq};
ghost use Rattle.json_model.specs.declared.place.Leaf.TheVariants as leaves;
ghost use Rattle.json_model.specs.declared.place.Place.TheVariants as places;
ghost use Rattle.json_model.specs.Places as table;

use crate::place::{Constants, Leaf, Object, Place, Series};

/// The kinds of a value.
#[tactic(auto, unfolding(crate::specs::Places::value_rows))]
pub fn value_member(name: &str) -> Place
    ensures { result ≡ table.value_member name.now }
{
    match name {
        "stringValue" => Place::Leaf(Leaf::Text),
        "integerValue" => Place::Leaf(Leaf::Integer),
        "booleanValue" => Place::Leaf(Leaf::Boolean),
        "timestampValue" => Place::Leaf(Leaf::Time),
        "mapValue" => Place::Object(Object::Map),
        "arrayValue" => Place::Object(Object::Array),
        "nullValue" => Place::Leaf(Leaf::Null),
        "referenceValue" => Place::Leaf(Leaf::Reference),
        "bytesValue" => Place::Leaf(Leaf::Bytes),
        "doubleValue" => Place::Unsupported,
        "geoPointValue" => Place::Unsupported,
        _ => Place::Unknown,
    }
}

/// The lines, by the name of their only member. What the messages `watch` and `written` hold is read by the backend's side, and
/// not with the line.
#[tactic(auto, unfolding(crate::specs::Places::line_rows))]
fn line_member(name: &str) -> Place
    ensures { result ≡ table.placed table.line_rows name.now }
{
    match name {
        "write" => Place::Object(Object::WriteLine),
        "get" => Place::Object(Object::GetLine),
        "watch" => Place::Ignored,
        "written" => Place::Ignored,
        "listen" => Place::Object(Object::ListenLine),
        "unlisten" => Place::Object(Object::UnlistenLine),
        "open" => Place::Object(Object::OpenLine),
        "close" => Place::Object(Object::CloseLine),
        "timer" => Place::Object(Object::TimerLine),
        _ => Place::Unknown,
    }
}

/// What `write` holds.
#[tactic(auto, unfolding(crate::specs::Places::write_line_rows))]
fn write_line_member(name: &str) -> Place
    ensures { result ≡ table.placed table.write_line_rows name.now }
{
    match name {
        "at" => Place::Leaf(Leaf::Time),
        "writes" => Place::Series(Series::Writes),
        _ => Place::Unknown,
    }
}

/// What `listen` holds.
#[tactic(auto, unfolding(crate::specs::Places::listen_line_rows))]
fn listen_line_member(name: &str) -> Place
    ensures { result ≡ table.placed table.listen_line_rows name.now }
{
    match name {
        "id" => Place::Leaf(Leaf::ListenerId),
        "target" => Place::Object(Object::Target),
        _ => Place::Unknown,
    }
}

/// What `close` holds.
#[tactic(auto, unfolding(crate::specs::Places::close_line_rows))]
fn close_line_member(name: &str) -> Place
    ensures { result ≡ table.placed table.close_line_rows name.now }
{
    match name {
        "status" => Place::Object(Object::Status),
        "stream" => Place::Leaf(Leaf::Constant(Constants::StreamName)),
        _ => Place::Unknown,
    }
}

/// A write.
#[tactic(auto, unfolding(crate::specs::Places::write_rows))]
fn write_member(name: &str) -> Place
    ensures { result ≡ table.placed table.write_rows name.now }
{
    match name {
        "update" => Place::Object(Object::Update),
        "updateMask" => Place::Object(Object::Mask),
        "updateTransforms" => Place::Series(Series::Transforms),
        "currentDocument" => Place::Object(Object::Condition),
        "delete" => Place::Leaf(Leaf::Name),
        "transform" => Place::Unsupported,
        _ => Place::Unknown,
    }
}

/// A write whose alternative is `delete`: it has no mask and no transforms.
#[tactic(auto, unfolding(crate::specs::Places::delete_write_rows))]
fn delete_write_member(name: &str) -> Place
    ensures { result ≡ table.placed table.delete_write_rows name.now }
{
    match name {
        "currentDocument" => Place::Object(Object::Condition),
        "delete" => Place::Leaf(Leaf::Name),
        _ => Place::Unknown,
    }
}

/// What `update` holds.
#[tactic(auto, unfolding(crate::specs::Places::update_rows))]
fn update_member(name: &str) -> Place
    ensures { result ≡ table.placed table.update_rows name.now }
{
    match name {
        "fields" => Place::Object(Object::Fields),
        "name" => Place::Leaf(Leaf::Name),
        _ => Place::Unknown,
    }
}

/// What `updateMask` holds.
#[tactic(auto, unfolding(crate::specs::Places::mask_rows))]
fn mask_member(name: &str) -> Place
    ensures { result ≡ table.placed table.mask_rows name.now }
{
    match name {
        "fieldPaths" => Place::Series(Series::Paths),
        _ => Place::Unknown,
    }
}

/// What `currentDocument` holds.
#[tactic(auto, unfolding(crate::specs::Places::condition_rows))]
fn condition_member(name: &str) -> Place
    ensures { result ≡ table.placed table.condition_rows name.now }
{
    match name {
        "exists" => Place::Leaf(Leaf::Boolean),
        "updateTime" => Place::Leaf(Leaf::Time),
        _ => Place::Unknown,
    }
}

/// A transform.
#[tactic(auto, unfolding(crate::specs::Places::transform_rows))]
fn transform_member(name: &str) -> Place
    ensures { result ≡ table.placed table.transform_rows name.now }
{
    match name {
        "appendMissingElements" => Place::Object(Object::Elements),
        "fieldPath" => Place::Leaf(Leaf::Path),
        "increment" => Place::Object(Object::Operand),
        "maximum" => Place::Object(Object::Operand),
        "minimum" => Place::Object(Object::Operand),
        "removeAllFromArray" => Place::Object(Object::Elements),
        "setToServerValue" => Place::Leaf(Leaf::ServerTime),
        _ => Place::Unknown,
    }
}

/// The operand of an arithmetic transform: a value that is a whole number.
#[tactic(auto, unfolding(crate::specs::Places::operand_rows))]
fn operand_member(name: &str) -> Place
    ensures { result ≡ table.placed table.operand_rows name.now }
{
    match name {
        "doubleValue" => Place::Unsupported,
        "integerValue" => Place::Leaf(Leaf::Integer),
        _ => Place::Unknown,
    }
}

/// A target: a document, or a query.
#[tactic(auto, unfolding(crate::specs::Places::target_rows))]
fn target_member(name: &str) -> Place
    ensures { result ≡ table.placed table.target_rows name.now }
{
    match name {
        "documents" => Place::Object(Object::Documents),
        "query" => Place::Object(Object::Query),
        _ => Place::Unknown,
    }
}

/// What `query` of a target holds.
#[tactic(auto, unfolding(crate::specs::Places::query_rows))]
fn query_member(name: &str) -> Place
    ensures { result ≡ table.placed table.query_rows name.now }
{
    match name {
        "parent" => Place::Leaf(Leaf::Parent),
        "structuredQuery" => Place::Object(Object::StructuredQuery),
        _ => Place::Unknown,
    }
}

/// What `structuredQuery` holds.
#[tactic(auto, unfolding(crate::specs::Places::structured_query_rows))]
fn structured_query_member(name: &str) -> Place
    ensures { result ≡ table.placed table.structured_query_rows name.now }
{
    match name {
        "endAt" => Place::Object(Object::Cursor),
        "findNearest" => Place::Unsupported,
        "from" => Place::Series(Series::Selectors),
        "limit" => Place::Leaf(Leaf::Limit),
        "offset" => Place::Unsupported,
        "orderBy" => Place::Series(Series::Orders),
        "select" => Place::Unsupported,
        "startAt" => Place::Object(Object::Cursor),
        "where" => Place::Object(Object::Filter),
        _ => Place::Unknown,
    }
}

/// An item of `from`.
#[tactic(auto, unfolding(crate::specs::Places::selector_rows))]
fn selector_member(name: &str) -> Place
    ensures { result ≡ table.placed table.selector_rows name.now }
{
    match name {
        "allDescendants" => Place::Leaf(Leaf::Descendants),
        "collectionId" => Place::Leaf(Leaf::Id),
        _ => Place::Unknown,
    }
}

/// An item of `orderBy`.
#[tactic(auto, unfolding(crate::specs::Places::order_rows))]
fn order_member(name: &str) -> Place
    ensures { result ≡ table.placed table.order_rows name.now }
{
    match name {
        "direction" => Place::Leaf(Leaf::Constant(Constants::Direction)),
        "field" => Place::Object(Object::Field),
        _ => Place::Unknown,
    }
}

/// What `startAt` and `endAt` hold.
#[tactic(auto, unfolding(crate::specs::Places::cursor_rows))]
fn cursor_member(name: &str) -> Place
    ensures { result ≡ table.placed table.cursor_rows name.now }
{
    match name {
        "before" => Place::Leaf(Leaf::Boolean),
        "values" => Place::Series(Series::Values),
        _ => Place::Unknown,
    }
}

/// A filter.
#[tactic(auto, unfolding(crate::specs::Places::filter_rows))]
fn filter_member(name: &str) -> Place
    ensures { result ≡ table.placed table.filter_rows name.now }
{
    match name {
        "compositeFilter" => Place::Object(Object::CompositeFilter),
        "fieldFilter" => Place::Object(Object::FieldFilter),
        "unaryFilter" => Place::Object(Object::UnaryFilter),
        _ => Place::Unknown,
    }
}

/// What `compositeFilter` holds.
#[tactic(auto, unfolding(crate::specs::Places::composite_filter_rows))]
fn composite_filter_member(name: &str) -> Place
    ensures { result ≡ table.placed table.composite_filter_rows name.now }
{
    match name {
        "filters" => Place::Series(Series::Filters),
        "op" => Place::Leaf(Leaf::Constant(Constants::Junction)),
        _ => Place::Unknown,
    }
}

/// What `fieldFilter` holds.
#[tactic(auto, unfolding(crate::specs::Places::field_filter_rows))]
fn field_filter_member(name: &str) -> Place
    ensures { result ≡ table.placed table.field_filter_rows name.now }
{
    match name {
        "field" => Place::Object(Object::Field),
        "op" => Place::Leaf(Leaf::Constant(Constants::Operator)),
        "value" => Place::Object(Object::Value),
        _ => Place::Unknown,
    }
}

/// A filter of a field whose operand is a list of operands.
#[tactic(auto, unfolding(crate::specs::Places::list_filter_rows))]
fn list_filter_member(name: &str) -> Place
    ensures { result ≡ table.placed table.list_filter_rows name.now }
{
    match name {
        "field" => Place::Object(Object::Field),
        "op" => Place::Leaf(Leaf::Constant(Constants::Operator)),
        "value" => Place::Object(Object::ListOperand),
        _ => Place::Unknown,
    }
}

/// What `unaryFilter` holds.
#[tactic(auto, unfolding(crate::specs::Places::unary_filter_rows))]
fn unary_filter_member(name: &str) -> Place
    ensures { result ≡ table.placed table.unary_filter_rows name.now }
{
    match name {
        "field" => Place::Object(Object::Field),
        "op" => Place::Leaf(Leaf::Constant(Constants::Test)),
        _ => Place::Unknown,
    }
}

/// A message of a watch stream.
#[tactic(auto, unfolding(crate::specs::Places::listen_response_rows))]
fn listen_response_member(name: &str) -> Place
    ensures { result ≡ table.placed table.listen_response_rows name.now }
{
    match name {
        "documentChange" => Place::Object(Object::DocumentChange),
        "documentDelete" => Place::Object(Object::DocumentDelete),
        "documentRemove" => Place::Object(Object::DocumentDelete),
        "filter" => Place::Object(Object::ExistenceFilter),
        "targetChange" => Place::Object(Object::TargetChange),
        _ => Place::Unknown,
    }
}

/// What `targetChange` holds.
#[tactic(auto, unfolding(crate::specs::Places::target_change_rows))]
fn target_change_member(name: &str) -> Place
    ensures { result ≡ table.placed table.target_change_rows name.now }
{
    match name {
        "cause" => Place::Object(Object::Status),
        "readTime" => Place::Leaf(Leaf::Time),
        "resumeToken" => Place::Leaf(Leaf::Bytes),
        "targetChangeType" => Place::Leaf(Leaf::Constant(Constants::ChangeType)),
        "targetIds" => Place::Series(Series::TargetIds),
        _ => Place::Unknown,
    }
}

/// A status: what else it has is read over, whoever wrote it.
fn status_member(name: &str) -> Place
    ensures { result ≡ table.member_place Object.Status name.now }
{
    match name {
        "code" => Place::Leaf(Leaf::Code),
        "message" => Place::Leaf(Leaf::Text),
        _ => Place::Ignored,
    }
}

/// What `documentChange` holds.
#[tactic(auto, unfolding(crate::specs::Places::document_change_rows))]
fn document_change_member(name: &str) -> Place
    ensures { result ≡ table.placed table.document_change_rows name.now }
{
    match name {
        "document" => Place::Object(Object::Document),
        "removedTargetIds" => Place::Series(Series::TargetIds),
        "targetIds" => Place::Series(Series::TargetIds),
        _ => Place::Unknown,
    }
}

/// What `document` of a changed one holds.
#[tactic(auto, unfolding(crate::specs::Places::document_rows))]
fn document_member(name: &str) -> Place
    ensures { result ≡ table.placed table.document_rows name.now }
{
    match name {
        "createTime" => Place::Ignored,
        "fields" => Place::Object(Object::Fields),
        "name" => Place::Leaf(Leaf::Name),
        "updateTime" => Place::Leaf(Leaf::Time),
        _ => Place::Unknown,
    }
}

/// What `documentDelete` and `documentRemove` hold.
#[tactic(auto, unfolding(crate::specs::Places::document_delete_rows))]
fn document_delete_member(name: &str) -> Place
    ensures { result ≡ table.placed table.document_delete_rows name.now }
{
    match name {
        "document" => Place::Leaf(Leaf::Name),
        "readTime" => Place::Leaf(Leaf::Time),
        "removedTargetIds" => Place::Series(Series::TargetIds),
        _ => Place::Unknown,
    }
}

/// What `filter` of a message holds.
#[tactic(auto, unfolding(crate::specs::Places::existence_filter_rows))]
fn existence_filter_member(name: &str) -> Place
    ensures { result ≡ table.placed table.existence_filter_rows name.now }
{
    match name {
        "count" => Place::Leaf(Leaf::Count),
        "targetId" => Place::Leaf(Leaf::TargetId),
        "unchangedNames" => Place::Ignored,
        _ => Place::Unknown,
    }
}

/// A message of a write stream.
#[tactic(auto, unfolding(crate::specs::Places::write_response_rows))]
fn write_response_member(name: &str) -> Place
    ensures { result ≡ table.placed table.write_response_rows name.now }
{
    match name {
        "commitTime" => Place::Leaf(Leaf::Time),
        "streamId" => Place::Ignored,
        "streamToken" => Place::Leaf(Leaf::Bytes),
        "writeResults" => Place::Series(Series::Results),
        _ => Place::Unknown,
    }
}

/// An item of `writeResults`.
#[tactic(auto, unfolding(crate::specs::Places::write_result_rows))]
fn write_result_member(name: &str) -> Place
    ensures { result ≡ table.placed table.write_result_rows name.now }
{
    match name {
        "transformResults" => Place::Series(Series::Values),
        "updateTime" => Place::Leaf(Leaf::Time),
        _ => Place::Unknown,
    }
}

/// The place, under the only name that is known.
fn only(name: &str, known: &str, place: Place) -> Place
    ensures { result ≡ (if bytes_eq name.now known.now then place else places.Unknown) }
{
    if name == known {
        return place;
    }
    Place::Unknown
}

/// The place of one of several texts.
fn constant(texts: Constants) -> Place
    ensures { result ≡ places.Leaf (leaves.Constant texts) }
{
    Place::Leaf(Leaf::Constant(texts))
}

/// What an object of one member holds.
fn lone_member(object: Object, name: &str) -> Place
    requires { IsTrue (table.has_one_member object) }
    ensures { result ≡ table.member_place object name.now }
{
    match object {
        Object::Array | Object::Elements => only(name, "values", Place::Series(Series::Values)),
        Object::Map => only(name, "fields", Place::Object(Object::Fields)),
        Object::GetLine => only(name, "name", Place::Leaf(Leaf::Name)),
        Object::UnlistenLine => only(name, "id", Place::Leaf(Leaf::ListenerId)),
        Object::OpenLine => only(name, "stream", constant(Constants::StreamName)),
        Object::TimerLine => only(name, "name", constant(Constants::TimerName)),
        Object::Documents => only(name, "documents", Place::Series(Series::Names)),
        Object::Field => only(name, "fieldPath", Place::Leaf(Leaf::QueryPath)),
        _ => unreachable!(),
    }
}

/// The place of the member of that name.
pub(crate) fn member_place(object: Object, name: &str) -> Place
    ensures { result ≡ table.member_place object name.now }
{
    match object {
        Object::Value => value_member(name),
        Object::Fields => Place::Object(Object::Value),
        Object::Line => line_member(name),
        Object::WriteLine => write_line_member(name),
        Object::ListenLine => listen_line_member(name),
        Object::CloseLine => close_line_member(name),
        Object::Write => write_member(name),
        Object::DeleteWrite => delete_write_member(name),
        Object::Update => update_member(name),
        Object::Mask => mask_member(name),
        Object::Condition => condition_member(name),
        Object::Transform | Object::ArrayTransform => transform_member(name),
        Object::Operand => operand_member(name),
        Object::Target => target_member(name),
        Object::Query => query_member(name),
        Object::StructuredQuery => structured_query_member(name),
        Object::Selector => selector_member(name),
        Object::Order => order_member(name),
        Object::Cursor => cursor_member(name),
        Object::Filter => filter_member(name),
        Object::CompositeFilter => composite_filter_member(name),
        Object::FieldFilter => field_filter_member(name),
        Object::ListFilter => list_filter_member(name),
        Object::UnaryFilter => unary_filter_member(name),
        Object::ListenResponse => listen_response_member(name),
        Object::TargetChange => target_change_member(name),
        Object::Status => status_member(name),
        Object::DocumentChange => document_change_member(name),
        Object::Document => document_member(name),
        Object::DocumentDelete => document_delete_member(name),
        Object::ExistenceFilter => existence_filter_member(name),
        Object::WriteResponse => write_response_member(name),
        Object::WriteResult => write_result_member(name),
        Object::ListOperand => Place::Unknown,
        _ => lone_member(object, name),
    }
}

/// The place of a list's items.
pub fn item_place(series: Series) -> Place
    ensures { result ≡ table.item_place series }
{
    match series {
        Series::Values => Place::Object(Object::Value),
        Series::Writes => Place::Object(Object::Write),
        Series::Paths => Place::Leaf(Leaf::Path),
        Series::Transforms => Place::Object(Object::Transform),
        Series::Names => Place::Leaf(Leaf::Name),
        Series::Selectors => Place::Object(Object::Selector),
        Series::Orders => Place::Object(Object::Order),
        Series::Filters => Place::Object(Object::Filter),
        Series::TargetIds => Place::Leaf(Leaf::TargetId),
        Series::Results => Place::Object(Object::WriteResult),
    }
}

/// The members that an object must have, ascending.
pub fn required(object: Object) -> &'static [&'static str]
    ensures { map (λ name. name.now) result.now ≡ table.required object }
{
    match object {
        Object::WriteLine => &["at"],
        Object::GetLine => &["name"],
        Object::ListenLine => &["target"],
        Object::OpenLine => &["stream"],
        Object::CloseLine => &["stream"],
        Object::TimerLine => &["name"],
        Object::Update => &["name"],
        Object::Transform => &["fieldPath"],
        Object::ArrayTransform => &["fieldPath"],
        Object::Documents => &["documents"],
        Object::Query => &["parent", "structuredQuery"],
        Object::Selector => &["collectionId"],
        Object::Order => &["field"],
        Object::Field => &["fieldPath"],
        Object::CompositeFilter => &["op"],
        Object::FieldFilter => &["field", "op", "value"],
        Object::ListFilter => &["field", "op", "value"],
        Object::UnaryFilter => &["field", "op"],
        Object::DocumentChange => &["document"],
        Object::Document => &["name", "updateTime"],
        Object::DocumentDelete => &["document"],
        _ => &[],
    }
}

/// Whether the object has exactly one of several members.
pub fn chooses(object: Object) -> bool
    ensures { result ≡ table.chooses object }
{
    match object {
        Object::Value
        | Object::Line
        | Object::Write
        | Object::Condition
        | Object::Transform
        | Object::Operand
        | Object::Target
        | Object::Filter
        | Object::ListenResponse => true,
        _ => false,
    }
}

/// The alternatives of a write.
#[tactic(auto, unfolding(crate::specs::Places::is_write_choice))]
fn is_write_choice(name: &str) -> bool
    ensures { result ≡ table.is_write_choice name.now }
{
    match name {
        "update" => true,
        "delete" => true,
        "transform" => true,
        _ => false,
    }
}

/// The alternatives of a transform.
fn is_transform_choice(name: &str) -> bool
    ensures { result ≡ table.is_choice Object.Transform name.now }
{
    if name == "fieldPath" {
        return false;
    }
    !transform_member(name).is_unknown()
}

/// Whether the member is one of those that the object has exactly one of. What isn't supported counts, and in a line and an
/// operand any that would be one elsewhere.
pub fn is_choice(object: Object, name: &str) -> bool
    ensures { result ≡ table.is_choice object name.now }
{
    match object {
        Object::Value | Object::Operand => !value_member(name).is_unknown(),
        Object::Line => true,
        Object::Write => is_write_choice(name),
        Object::Condition => !condition_member(name).is_unknown(),
        Object::Transform => is_transform_choice(name),
        Object::Target => !target_member(name).is_unknown(),
        Object::Filter => !filter_member(name).is_unknown(),
        Object::ListenResponse => !listen_response_member(name).is_unknown(),
        _ => false,
    }
}
