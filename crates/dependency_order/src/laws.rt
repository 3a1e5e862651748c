//! What the words of this crate say of a small case.

ghost use Rattle.dependency_order.specs.Examples.{Examples};

/// A law: of two items in a chain the one that the other waits for comes first, and an item that waits for
/// itself never comes.
pub fn examples()
    ensures { Examples }
{}
