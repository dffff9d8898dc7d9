//! The kinds of tables: `set`, `bag` and `duplicate_bag`. They differ in the objects that one key may have.
/// Which objects of one key a table keeps (stdlib manual, ets:new/2).
#[derive(Clone, Copy, PartialEq, Eq)]
pub enum Kind {
    /// One object; a new object replaces it.
    Set,
    /// Any number of objects, but no two equal objects.
    Bag,
    /// Any number of objects, also equal objects.
    DuplicateBag,
}
