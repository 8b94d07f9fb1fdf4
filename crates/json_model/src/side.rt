/// Who wrote a tree.
#[derive(Clone, Copy, Debug, PartialEq, Eq)]
pub enum Side {
    /// The caller: a member that isn't known is a fault.
    Caller,
    /// The backend: a member that isn't known is ignored.
    Backend,
}
