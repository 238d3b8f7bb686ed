//! A list in order is determined by its members.

ghost use Rattle.std.specs.Prelude.{List, Contains, ◌≡◌, ◌↔◌};
ghost use Rattle.std.specs.List.Sorted.{IsStrictlySortedBy};

/// The law of lists in order: two lists, each of whose items stands before those behind it, are equal where they have
/// the same members. It is a statement, and does nothing when it is called.
pub fn same_members_same_list<T: Ord>()
    ensures { (a b : List T) → IsStrictlySortedBy T.cmp a → IsStrictlySortedBy T.cmp b
        → ((item : T) → Contains a item ↔ Contains b item) → a ≡ b }
{}
