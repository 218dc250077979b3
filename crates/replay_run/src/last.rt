ghost use Rattle.std.specs.Prelude.{◌≡◌, ◌<◌, [], ◌∷◌, ◌++◌, length};

/// Takes the last item.
pub fn take_last<T>(items: &mut Vec<T>) -> T
    requires { 0 < length items.old.items }
    ensures { items.old.items ≡ items.new.items ++ result ∷ [] }
{
    items.pop().unwrap()
}
