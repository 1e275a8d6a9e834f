//! Two elements leave their vector, and come back.
ghost use Rattle.std.specs.Prelude.{◌≡◌, ◌≤◌, ◌∷◌, [], length};
ghost use Rattle.std.specs.Vec.{vec_capacity};

/// The two elements of a vector, and the vector without them, which keeps their places.
pub fn take_two<T>(items: Vec<T>) -> (T, T, Vec<T>)
    requires { length items.items ≡ 2 }
    ensures two { items.items ≡ result.0 ∷ result.1 ∷ [] }
    ensures rest { result.2.items ≡ [] }
    ensures room { 2 ≤ vec_capacity result.2 }
{
    let mut items = items;
    let second = items.pop().unwrap();
    let first = items.pop().unwrap();
    (first, second, items)
}

/// The vector with the two in their places again.
pub fn put_two<T>(items: Vec<T>, first: T, second: T) -> Vec<T>
    requires rest { items.items ≡ [] }
    requires room { 2 ≤ vec_capacity items }
    ensures { result.items ≡ first ∷ second ∷ [] }
{
    let mut items = items;
    items.push_reserved(first);
    items.push_reserved(second);
    items
}
