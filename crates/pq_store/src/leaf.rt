use std::hash::Hash;

/// What a leaf may be: values that compare as equal are the same.
pub trait Leaf: Eq + Hash + Drop {
    ghost use Rattle.std.specs.Prelude.{◌≡◌, true};

    // Equality is identity.
    ghost exact: { (x y : Self) → Self.eq x y ≡ true → x ≡ y };
}

impl Leaf for bool {
    ghost use Rattle.std.specs.Cmp.{booleans_Decides};

    ghost exact = { λ x y. (booleans_Decides x y).0 };
}

impl Leaf for u64 {
    ghost use Rattle.std.specs.Cmp.{unsigned_Decides};

    ghost exact = { λ x y. (unsigned_Decides x y).0 };
}

impl<T: Leaf> Leaf for Option<T> {
    ghost use Rattle.pq_store.specs.Options.{same_option};

    ghost exact = { same_option T.eq T.exact };
}
