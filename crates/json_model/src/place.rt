ghost use Rattle.std.specs.Prelude.{◌≡◌};
ghost use Rattle.serde_json.specs.View.{view};
ghost use Rattle.json_model.specs.Members.{is_left_out, takes_null as takes_null_of};
ghost use Rattle.json_model.specs.Places.{is_unknown as is_unknown_of};

use serde_json::Value as Json;

/// What is to stand at a place of a tree.
#[derive(Clone, Copy, Debug, PartialEq, Eq)]
pub enum Place {
    /// An object.
    Object(Object),
    /// A list.
    Series(Series),
    /// A tree that isn't looked into.
    Leaf(Leaf),
    /// Whatever stands under a name that isn't supported.
    Unsupported,
    /// Whatever stands under a name that isn't known.
    Unknown,
    /// What is read over.
    Ignored,
}

/// An object, by the names that it may have.
#[derive(Clone, Copy, Debug, PartialEq, Eq)]
pub enum Object {
    /// A value: one member that names its kind.
    Value,
    /// What `arrayValue` holds: a list `values`.
    Array,
    /// What `mapValue` holds: an object `fields`.
    Map,
    /// Values, each under the name of a field.
    Fields,
    /// A line: one member that names it.
    Line,
    /// What `write` holds.
    WriteLine,
    /// What `get` holds.
    GetLine,
    /// What `listen` holds.
    ListenLine,
    /// What `unlisten` holds.
    UnlistenLine,
    /// What `open` holds.
    OpenLine,
    /// What `close` holds.
    CloseLine,
    /// What `timer` holds.
    TimerLine,
    /// A write: an update, or by its members a `DeleteWrite`.
    Write,
    /// A write that deletes.
    DeleteWrite,
    /// What `update` holds.
    Update,
    /// What `updateMask` holds.
    Mask,
    /// What `currentDocument` holds.
    Condition,
    /// A transform, or by its members an `ArrayTransform`.
    Transform,
    /// A transform of an array, whose elements stand below its path.
    ArrayTransform,
    /// The operand of an arithmetic transform: a value that is a whole number.
    Operand,
    /// The elements of a transform of an array.
    Elements,
    /// What `documents` of a target holds: the name of its document.
    Documents,
    /// A target: a document, or a query.
    Target,
    /// What `query` of a target holds.
    Query,
    /// What `structuredQuery` holds.
    StructuredQuery,
    /// An item of `from`: a collection's id.
    Selector,
    /// An item of `orderBy`.
    Order,
    /// What `field` holds: the path of a field.
    Field,
    /// What `startAt` and `endAt` hold.
    Cursor,
    /// A filter of any kind.
    Filter,
    /// What `compositeFilter` holds.
    CompositeFilter,
    /// What `fieldFilter` holds, or by its operator a `ListFilter`.
    FieldFilter,
    /// A filter of a field whose operand is a list of operands.
    ListFilter,
    /// What `unaryFilter` holds.
    UnaryFilter,
    /// A list of operands: a `Value` that is an array.
    ListOperand,
    /// A message of a watch stream: one member that names its kind.
    ListenResponse,
    /// What `targetChange` holds.
    TargetChange,
    /// A status: the code of an error with its message.
    Status,
    /// What `documentChange` holds.
    DocumentChange,
    /// What `document` of a `DocumentChange` holds.
    Document,
    /// What `documentDelete` and `documentRemove` hold.
    DocumentDelete,
    /// What `filter` of a message holds.
    ExistenceFilter,
    /// A message of a write stream.
    WriteResponse,
    /// An item of `writeResults`.
    WriteResult,
}

/// A list, by its items.
#[derive(Clone, Copy, Debug, PartialEq, Eq)]
pub enum Series {
    /// Values.
    Values,
    /// Writes.
    Writes,
    /// Paths of fields.
    Paths,
    /// Transforms.
    Transforms,
    /// The names of a target's documents, exactly one.
    Names,
    /// The collections of a query.
    Selectors,
    /// The orders of a query.
    Orders,
    /// The filters of a composite one.
    Filters,
    /// Ids of targets.
    TargetIds,
    /// The results of writes.
    Results,
}

/// A tree that isn't looked into.
#[derive(Clone, Copy, Debug, PartialEq, Eq)]
pub enum Leaf {
    /// What `nullValue` holds.
    Null,
    /// true or false.
    Boolean,
    /// A whole number of 64 bits with sign.
    Integer,
    /// A time.
    Time,
    /// A text.
    Text,
    /// Bytes in base64.
    Bytes,
    /// The name of a document of any database.
    Reference,
    /// The name of a document.
    Name,
    /// The path of a field in a write.
    Path,
    /// The text that stands for the time at which the backend commits.
    ServerTime,
    /// The id of a collection.
    Id,
    /// The name of a document, or of the root's `documents`.
    Parent,
    /// The path of a field in a query, or `__name__`, which stands for the document's own name.
    QueryPath,
    /// A whole number of 32 bits with sign.
    Limit,
    /// Whether collections below are meant, which must be false.
    Descendants,
    /// The id of a target: a whole number of 32 bits with sign.
    TargetId,
    /// A number of documents, from 0 to 2,147,483,647.
    Count,
    /// The code of a status, from 0 to 16.
    Code,
    /// The id of a listener, from 0 to 4,294,967,295.
    ListenerId,
    /// One of several texts.
    Constant(Constants),
}

/// The texts that may stand as a constant.
#[derive(Clone, Copy, Debug, PartialEq, Eq)]
pub enum Constants {
    /// How filters are joined.
    Junction,
    /// How a field stands to an operand.
    Operator,
    /// A test of a field.
    Test,
    /// The direction of an order.
    Direction,
    /// What became of targets.
    ChangeType,
    /// The name of a stream of the backend.
    StreamName,
    /// The name of a timer.
    TimerName,
}

impl Place {
    /// Whether null may stand there.
    fn takes_null(self) -> bool
        ensures { result ≡ takes_null_of self }
    {
        match self {
            Place::Leaf(Leaf::Null) => true,
            _ => false,
        }
    }

    /// Whether the member is left out: its value is null, and null isn't what is to stand there.
    pub fn is_left_out(self, json: &Json) -> bool
        ensures { result ≡ is_left_out self (view json.now) }
    {
        if self.takes_null() {
            return false;
        }
        json.is_null()
    }

    /// Whether it is that of a name that isn't known.
    pub fn is_unknown(self) -> bool
        ensures { result ≡ is_unknown_of self }
    {
        match self {
            Place::Unknown => true,
            _ => false,
        }
    }
}
